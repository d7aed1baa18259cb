// What has been read of a schedule.
use crate::client_lists::ClientList;
use crate::name_lists::NameList;
use crate::step_line_lists::StepLines;
use causes::NumberList;
use update_core::FeedAppend;

/// The names of a schedule's clients, in the order of their making, and what its lines say. See docs/DEFINITIONS.md, "Schedules".
#[derive(Drop)]
pub struct Schedule {
    pub names: NameList,
    pub lines: StepLines,
}

/// An append block that is open, and whose append it is.
#[derive(Drop)]
pub struct Block {
    pub client: u64,
    pub append: FeedAppend,
}

/// What a schedule's lines have said so far. See docs/DEFINITIONS.md, "Schedules".
#[derive(Drop)]
pub struct SoFar {
    pub names: NameList,
    pub clients: ClientList,
    pub stopped: NumberList,
    pub lines: StepLines,
    pub moment: u64,
    pub block: Option<Block>,
}

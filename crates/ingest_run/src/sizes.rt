// How large a crew is.
use crew::StopList;

/// How many writers, compactors and collectors a crew has, and which of them stop early.
#[derive(Drop)]
pub struct CrewSize {
    pub writers: u32,
    pub compactors: u32,
    pub collectors: u32,
    pub stops: StopList,
}

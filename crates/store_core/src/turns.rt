// What a port answers.
use crate::replies::Reply;

/// The store's reply, or that the store was taken and has not been asked.
#[derive(Drop)]
pub enum Turn {
    Reply(Reply),
    Busy,
}

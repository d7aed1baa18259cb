// What a program's call gives back.

/// The status that a command ended with, and the store that was handed in.
#[derive(Drop)]
pub struct Ended<S> {
    pub status: u8,
    pub store: S,
}

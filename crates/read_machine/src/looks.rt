// What a state says to a question.
use spine_core::KeyList;

/// What a state says to a question of a member that stands in it.
#[derive(Drop)]
pub enum Look<A> {
    /// The answer, for which no part is read.
    Answer(A),
    /// The parts that are to be read.
    Parts(KeyList),
}

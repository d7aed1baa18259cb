// What a state shows to the member that asks.
use spine_core::KeyList;

/// What a state shows to the member that asks a question.
#[derive(Drop)]
pub enum Sight<A> {
    /// The member doesn't stand.
    Gone,
    /// The member stands, but not as one that asks this.
    Strange,
    /// The answer, for which no part is read.
    Answer(A),
    /// The parts that are to be read; there is one at least.
    Parts(KeyList),
}

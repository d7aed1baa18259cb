// What a pass knows.
use std::collections::LinkedList;

/// What a pass knows, for the contracts alone: no value of it is made.
pub struct View<B, I> {
    /// The client that its entries are of.
    pub number: u64,
    /// The least number of the stock, from which it hands numbers out.
    pub low: u64,
    /// How many numbers the stock has.
    pub stock: u64,
    /// Its part of 2^64. All parts together make the turnstile whole.
    pub share: u64,
    /// The numbers that it answers for, each with its entries since the turnstile was made.
    pub kin: LinkedList<(u64, LinkedList<I>)>,
    /// What the value told when the turnstile was made.
    pub start: Option<(B, LinkedList<I>)>,
    /// The entries since then that the pass has seen.
    pub gain: LinkedList<I>,
    /// The shorter of the two lists that a join put together.
    pub beside: LinkedList<I>,
    /// 1 from a take to the give, and else 0.
    pub turn: u64,
    /// How many takes found the turn held.
    pub misses: u64,
    /// The count that the pass found when it last looked at it.
    pub looked: u64,
}

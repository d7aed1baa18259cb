// The pairs `P:O` of a line: the next offsets of partitions.
ghost use Rattle.std.specs.Prelude.{◌≡◌, ℕ, ◌^◌, ◌<◌, ◌≤◌, ◌+◌, List, ◌∷◌, ◌++◌, slice_set, IfNone, IfSome, MatchOption};
ghost use Rattle.std.specs.Fmt.{decimal};
ghost use Rattle.remap_core.specs.Offsets.{unset};
ghost use Rattle.reclock_text.specs.Saws.{IsPair, Tells, pair_word};

use feed_text::{cut_at, number};
use remap_core::SourceFrontier;

// What pairs have told: a frontier, and the least partition that may come next.
#[derive(Clone, Copy)]
struct Told {
    frontier: SourceFrontier,
    next: u64,
}

// The numbers of a pair.
fn numbers(word: &[u8]) -> Option<(u64, u64)>
    ensures { MatchOption result
        ((p o : ℕ) → p < 2 ^ 64 → o < 2 ^ 64 → word.now ≡ pair_word (p, o) → ⊥)
        (λ a. (a.0 < 2 ^ 64) × (a.1 < 2 ^ 64) × (word.now ≡ pair_word a)) }
{
    match cut_at(b':', word) {
        None => None,
        Some((first, second)) => match number(first) {
            None => None,
            Some(partition) => match number(second) {
                None => None,
                Some(offset) => Some((partition, offset)),
            },
        },
    }
}

// The frontier with one more partition's offset.
fn with_offset(frontier: SourceFrontier, partition: u8, offset: u64) -> Option<SourceFrontier>
    ensures { MatchOption result (2 ^ 48 < offset) (λ g. (offset ≤ 2 ^ 48) × (g ≡ slice_set frontier partition offset)) }
{
    let mut frontier = frontier;
    match frontier.set(partition, offset) {
        Ok(()) => Some(frontier),
        Err(_) => None,
    }
}

// What pairs have told with one more, where its partition is above theirs.
fn with_pair(told: Told, word: &[u8]) -> Option<Told>
    ensures { MatchOption result
        ((a : ℕ × ℕ) → IsPair told.next a → word.now ≡ pair_word a → ⊥)
        (λ t. (a : ℕ × ℕ) × IsPair told.next a × (word.now ≡ pair_word a)
        × (t ≡ record { frontier = slice_set told.frontier a.0 a.1; next = a.0 + 1 })) }
{
    match numbers(word) {
        None => None,
        Some((partition, offset)) => {
            if partition < told.next {
                return None;
            }
            if partition > 255 {
                return None;
            }
            match with_offset(told.frontier, partition as u8, offset) {
                None => None,
                Some(frontier) => Some(Told {
                    frontier,
                    next: partition + 1,
                }),
            }
        }
    }
}

// Nothing told.
fn nothing() -> Told
    ensures { result ≡ record { frontier = unset; next = 0 } }
{
    Told {
        frontier: SourceFrontier::new(),
        next: 0,
    }
}

/// The frontier that pairs tell, one or more, with a space between two and partitions that rise.
pub(crate) fn frontier_of(text: &[u8]) -> Option<SourceFrontier>
    ensures some { IfSome result (λ g. Tells (32 ∷ text.now) 0 unset g) }
    ensures none { IfNone result ((g : List ℕ) → Tells (32 ∷ text.now) 0 unset g → ⊥) }
{
    let mut told = nothing();
    let mut left = text;
    while let Some((word, after)) = cut_at(b' ', left) {
        told = with_pair(told, word)?;
        left = after;
    }
    match with_pair(told, left) {
        None => None,
        Some(last) => Some(last.frontier),
    }
}

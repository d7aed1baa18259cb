// Stop numbers in a text.
ghost use Rattle.std.specs.Prelude.{◌≡◌, ℕ, ◌^◌, ◌<◌, List, [], ◌∷◌, ◌++◌, Some, None, IfOk, IfNone, IfSome, MatchOption};
ghost use Rattle.stops_core.specs.Stops.{stop_of};
ghost use Rattle.stops_core.specs.declared.stops.Stop.{Stop};
ghost use Rattle.stops_text.specs.Stops.{IsNext, Spells, stop_word};

use feed_text::{cut_at, number};
use std::alloc::{AllocError, Global};
use stops_core::{Stop, StopList};

// The two numbers of an item.
fn numbers(word: &[u8]) -> Option<(u64, u64)>
    ensures { MatchOption result
        ((w k : ℕ) → w < 2 ^ 64 → k < 2 ^ 64 → word.now ≡ stop_word (record { worker = w; calls = k }) → ⊥)
        (λ a. (a.0 < 2 ^ 64) × (a.1 < 2 ^ 64) × (word.now ≡ stop_word (record { worker = a.0; calls = a.1 }))) }
{
    match cut_at(b':', word) {
        None => None,
        Some((first, second)) => match number(first) {
            None => None,
            Some(worker) => match number(second) {
                None => None,
                Some(calls) => Some((worker, calls)),
            },
        },
    }
}

// The stop number that an item is, where its worker is one of so many and none of those before names it.
fn next_stop(before: &StopList, word: &[u8], workers: u32) -> Option<Stop>
    ensures { MatchOption result
        ((s : Stop) → IsNext workers before.now s → word.now ≡ stop_word s → ⊥)
        (λ s. IsNext workers before.now s × (word.now ≡ stop_word s)) }
{
    match numbers(word) {
        None => None,
        Some((worker, calls)) => {
            if worker >= u64::from(workers) {
                return None;
            }
            let worker = worker as u32;
            if before.stop_of(worker).is_some() {
                return None;
            }
            Some(Stop { worker, calls })
        }
    }
}

// The stops with one more.
fn with_stop(stops: StopList, stop: Stop) -> Result<StopList, AllocError>
    ensures { IfOk result (λ all. all ≡ stops ++ stop ∷ []) }
{
    let mut stops = stops;
    stops.push(stop)?;
    Ok(stops)
}

/// The stop numbers that a text names: one or more items `w:k`, with a comma between two, where each w is the number of one of so many
/// workers and none comes twice. None where the text is none. See docs/DEFINITIONS.md, "Words".
pub fn parse_stops(alloc: Global, text: &[u8], workers: u32) -> Result<Option<StopList>, AllocError>
    ensures some { IfOk result (λ found. IfSome found (Spells workers text.now)) }
    ensures none { IfOk result (λ found. IfNone found ((stops : List Stop) → Spells workers text.now stops → ⊥)) }
{
    let mut stops = StopList::new(alloc);
    let mut left = text;
    while let Some((word, after)) = cut_at(b',', left) {
        let Some(stop) = next_stop(&stops, word, workers) else {
            return Ok(None);
        };
        stops = with_stop(stops, stop)?;
        left = after;
    }
    match next_stop(&stops, left, workers) {
        None => Ok(None),
        Some(last) => {
            let stops = with_stop(stops, last)?;
            Ok(Some(stops))
        }
    }
}

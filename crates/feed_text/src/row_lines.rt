// The line of a row in an append block.
ghost use Rattle.std.specs.Prelude.{◌≡◌, ◌≢◌, ℕ, ℤ, ◌^◌, ◌<◌, List, ◌∷◌, ◌++◌, IfOk, MatchOption, FitsSigned};
ghost use Rattle.std.specs.Fmt.{decimal, signed_decimal};
ghost use Rattle.std.specs.Int.{w64};
ghost use Rattle.std.specs.List.{AllByRecursion};
ghost use Rattle.update_core.specs.declared.updates.Update.{Update};
ghost use Rattle.feed_text.specs.Grammar.{row_line, IsRow};

use crate::line_cuts::cut_at;
use crate::numbers::{difference, number};
use std::alloc::{AllocError, Global};
use update_core::{Datum, DatumFault, Update};

// A line's time and difference, and the rest of the line.
#[derive(Clone, Copy)]
struct RowWords<'a> {
    time: u64,
    diff: i64,
    datum: &'a [u8],
}

// The words of a row, whatever its datum is.
fn row_words(line: &[u8]) -> Option<RowWords<'_>>
    ensures { MatchOption result
        ((time : ℕ) (diff : ℤ) (datum : List ℕ) → time < 2 ^ 64 → FitsSigned w64 diff
        → line.now ≡ decimal time ++ 32 ∷ (signed_decimal diff ++ 32 ∷ datum) → ⊥)
        (λ row. (row.time < 2 ^ 64) × FitsSigned w64 row.diff
        × (line.now ≡ decimal row.time ++ 32 ∷ (signed_decimal row.diff ++ 32 ∷ row.datum.now))) }
{
    let (time, rest) = cut_at(b' ', line)?;
    let time = number(time)?;
    let (diff, datum) = cut_at(b' ', rest)?;
    let diff = difference(diff)?;
    Some(RowWords { time, diff, datum })
}

/// The row that a line spells. It takes memory for the datum.
pub fn row(alloc: Global, line: &[u8]) -> Result<Option<Update>, AllocError>
    requires { AllByRecursion (λ b. b ≢ 10) line.now }
    ensures { IfOk result (λ found. MatchOption found
        ((u : Update) → IsRow u → line.now ≡ row_line u → ⊥)
        (λ u. IsRow u × (line.now ≡ row_line u))) }
{
    match row_words(line) {
        None => Ok(None),
        Some(words) => match Datum::of(alloc, words.datum) {
            Ok(datum) => Ok(Some(Update {
                datum,
                time: words.time,
                diff: words.diff,
            })),
            Err(DatumFault::Memory) => Err(AllocError),
            Err(DatumFault::DatumSize { .. }) => Ok(None),
        },
    }
}

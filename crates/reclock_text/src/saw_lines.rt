// The line of what an operator has seen.
ghost use Rattle.std.specs.Prelude.{◌≡◌, MatchOption};
ghost use Rattle.reclock_text.specs.declared.saws.Saw.{Saw};
ghost use Rattle.reclock_text.specs.Saws.{IsSawLine};

use crate::pairs::frontier_of;
use crate::saws::Saw;
use crate::word_cuts::{behind, number_and_rest};

// What a line says that an operator has seen.
pub(crate) fn saw(line: &[u8], operators: u32) -> Option<Saw>
    ensures { MatchOption result
        ((s : Saw) → IsSawLine operators line.now s → ⊥)
        (λ s. IsSawLine operators line.now s) }
{
    let rest = behind(b"saw", line)?;
    let (operator, rest) = number_and_rest(rest)?;
    if operator >= u64::from(operators) {
        return None;
    }
    let (time, pairs) = number_and_rest(rest)?;
    let frontier = frontier_of(pairs)?;
    Some(Saw {
        operator: operator as u32,
        time,
        frontier,
    })
}

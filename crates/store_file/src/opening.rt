// Reading of a journal, from its letters to its last gate.
ghost use Rattle.std.specs.Prelude.{◌≡◌, ◌≢◌, ◌<◌, ◌-◌, ◌^◌, ◌++◌, [], ◌∷◌, true, false, length, drop, slice_index, None, Some, IfOk};
ghost use Rattle.std.specs.Prelude.{IfErr, IfSome, IfNone};
ghost use Rattle.store_core.specs.Contents.{stored_of};
ghost use Rattle.journal_core.specs.Records.{magic, records};
ghost use Rattle.store_file.specs.Replays.{after_record};
ghost use Rattle.store_file.specs.Opening.{IsNoStore, IsFaultOf, Finds};

use crate::found::Found;
use crate::open_faults::OpenFault;
use crate::payloads::read_call;
use journal_core::{Frame, first_number, next_frame};
use std::alloc::{AllocError, Global};
use store_core::Contents;

// The letters PERSJNL1 as a number.
const LETTERS: u64 = 0x5045_5253_4a4e_4c31;

fn after_letters(bytes: &[u8]) -> Option<&[u8]>
    ensures some { IfSome result (λ rest. (bytes.now ≡ magic ++ rest.now) × (0 < length rest.now)) }
    ensures none { IfNone result (IsNoStore bytes.now) }
    ensures few { length bytes.now < 2 ^ 64 }
{
    if bytes.len() < 9 {
        return None;
    }
    if first_number(bytes) != LETTERS {
        return None;
    }
    let (_, rest) = bytes.split_at(8);
    Some(rest)
}

// Takes a record into the store; whether it is a change there.
fn take_record(alloc: Global, contents: &mut Contents, payload: &[u8]) -> Result<bool, AllocError>
    ensures good { IfOk result (λ good. good ≡ true → after_record (stored_of contents.old) payload.now ≡ Some (stored_of contents.new)) }
    ensures bad { IfOk result (λ good. good ≡ false → after_record (stored_of contents.old) payload.now ≡ None) }
{
    let Some(call) = read_call(alloc, payload)? else {
        return Ok(false);
    };
    if !contents.changes(&call) {
        return Ok(false);
    }
    let _ = contents.apply(alloc, &call)?;
    Ok(true)
}

// What stands behind the first gate, if that is open.
fn behind_open_gate(bytes: &[u8]) -> Option<&[u8]>
    ensures open { IfSome result (λ rest. bytes.now ≡ 1 ∷ rest.now) }
    ensures shut { IfNone result (slice_index bytes.now 0 ≢ 1) }
{
    match bytes {
        [1, rest @ ..] => Some(rest),
        _ => None,
    }
}

fn first_byte(bytes: &[u8]) -> u8
    requires { 0 < length bytes.now }
    ensures first { result ≡ slice_index bytes.now 0 }
    ensures whole { bytes.now ≡ result ∷ drop 1 bytes.now }
{
    bytes[0]
}

fn place(total: usize, rest: &[u8]) -> u64
    ensures { result ≡ total - length rest.now }
{
    total.saturating_sub(rest.len()) as u64
}

/// The store that the bytes of a journal make, or why they are none.
pub(crate) fn found_in(alloc: Global, bytes: &[u8]) -> Result<Found, OpenFault>
    ensures found { IfOk result (λ found. Finds bytes.now found) }
    ensures fault { IfErr result (λ why. IsFaultOf bytes.now why) }
    ensures few { length bytes.now < 2 ^ 64 }
{
    let Some(first) = after_letters(bytes) else {
        return Err(OpenFault::NotAStore);
    };
    let mut contents = Contents::new(alloc);
    let mut rest = first;
    while let Some(after) = behind_open_gate(rest) {
        let at = place(bytes.len(), rest);
        let Frame::Whole {
            payload,
            rest: next,
        } = next_frame(after)
        else {
            return Err(OpenFault::Damaged { at });
        };
        if !take_record(alloc, &mut contents, payload)? {
            return Err(OpenFault::Damaged { at });
        }
        rest = next;
    }
    let end = place(bytes.len(), rest);
    let gate = first_byte(rest);
    Ok(Found {
        contents,
        end,
        gate,
    })
}

// Reading of parts.
ghost use Rattle.std.specs.Prelude.{◌≡◌, ◌⊎◌, List, [], length, IfErr, IfOk, Ok, None};
ghost use Rattle.std.specs.Int.{w32, w64};
ghost use Rattle.store_core.specs.Stores.{last_of};
ghost use Rattle.update_core.specs.declared.updates.Update.{Update as Row};
ghost use Rattle.part_codec.specs.Parts.{Part};
ghost use Rattle.part_codec.specs.Refusals.{IsRefused};
ghost use Rattle.part_codec.specs.declared.part_faults.PartFault.TheVariants.{Memory};
ghost use Rattle.byte_core.specs.Reading.{place};
ghost use Rattle.part_codec.specs.Reading.{Gives, byte_at, number_at, magic, magic_at, form_at, count_at, length_at, datum_at, bits_at, fields_at, follows, row_at, rows_at, all_of};

use crate::part_faults::PartFault;
use byte_core::{next_byte, next_u32, next_u64, place_of};
use std::alloc::{AllocError, Global};
use update_core::{Datum, Update, UpdateList};

// The letters PART.
const MAGIC: u32 = 0x5041_5254;

const MAX_ROWS: u32 = 4096;

// A row's length, a datum of one byte, a time and a difference.
const LEAST_ROW: usize = 18;

#[tactic(auto, unfolding(crate::specs::Reading::magic_at))]
fn after_magic(total: usize, bytes: &[u8]) -> Result<&[u8], PartFault>
    ensures { Gives (λ x. x.now) result (magic_at total bytes.now) }
{
    let (number, rest) = next_u32(total, bytes)?;
    if number == MAGIC {
        Ok(rest)
    } else {
        Err(PartFault::Magic {
            place: place_of(total, bytes),
        })
    }
}

#[tactic(auto, unfolding(crate::specs::Reading::form_at))]
fn after_form(total: usize, bytes: &[u8]) -> Result<&[u8], PartFault>
    ensures { Gives (λ x. x.now) result (form_at total bytes.now) }
{
    let (form, rest) = next_byte(total, bytes)?;
    if form == 1 {
        Ok(rest)
    } else {
        Err(PartFault::Form {
            place: place_of(total, bytes),
        })
    }
}

#[tactic(auto, unfolding(crate::specs::Reading::count_at))]
fn next_count(total: usize, bytes: &[u8]) -> Result<(u32, &[u8]), PartFault>
    ensures { Gives (λ x. (x.0, x.1.now)) result (count_at total bytes.now) }
{
    let (count, rest) = next_u32(total, bytes)?;
    if count > MAX_ROWS {
        return Err(PartFault::Size {
            place: place_of(total, bytes),
        });
    }
    Ok((count, rest))
}

#[tactic(auto, unfolding(crate::specs::Reading::length_at))]
fn next_length(total: usize, bytes: &[u8]) -> Result<(u8, &[u8]), PartFault>
    ensures { Gives (λ x. (x.0, x.1.now)) result (length_at total bytes.now) }
{
    let (len, rest) = next_byte(total, bytes)?;
    if len == 0 {
        return Err(PartFault::Size {
            place: place_of(total, bytes),
        });
    }
    Ok((len, rest))
}

#[tactic(auto, unfolding(crate::specs::Reading::datum_at))]
fn next_datum(alloc: Global, total: usize, bytes: &[u8]) -> Result<(Datum, &[u8]), PartFault>
    ensures { Gives (λ x. (x.0, x.1.now)) result (datum_at total bytes.now) }
{
    let (len, rest) = next_length(total, bytes)?;
    let len = len as usize;
    if rest.len() < len {
        return Err(PartFault::Short {
            place: place_of(total, rest),
        });
    }
    let (text, rest) = rest.split_at(len);
    // With 1 to 255 bytes only memory can be refused.
    match Datum::of(alloc, text) {
        Ok(datum) => Ok((datum, rest)),
        Err(_) => Err(PartFault::Memory),
    }
}

#[tactic(auto, unfolding(crate::specs::Reading::bits_at))]
fn next_bits(total: usize, bytes: &[u8]) -> Result<(u64, &[u8]), PartFault>
    ensures { Gives (λ x. (x.0, x.1.now)) result (bits_at total bytes.now) }
{
    let (bits, rest) = next_u64(total, bytes)?;
    if bits == 0 {
        return Err(PartFault::Zero {
            place: place_of(total, bytes),
        });
    }
    Ok((bits, rest))
}

#[tactic(auto, unfolding(crate::specs::Reading::fields_at))]
fn next_fields(alloc: Global, total: usize, bytes: &[u8]) -> Result<(Update, &[u8]), PartFault>
    ensures { Gives (λ x. (x.0, x.1.now)) result (fields_at total bytes.now) }
{
    let (datum, rest) = next_datum(alloc, total, bytes)?;
    let (time, rest) = next_u64(total, rest)?;
    let (bits, rest) = next_bits(total, rest)?;
    let diff = bits.cast_signed();
    Ok((Update { datum, time, diff }, rest))
}

fn may_follow(rows: &[Update], row: &Update) -> bool
    ensures { result ≡ follows (last_of rows.now) row.now }
{
    match rows {
        [] => true,
        [.., before] => {
            let order = before
                .datum
                .cmp(&row.datum)
                .then(before.time.cmp(&row.time));
            order.is_lt()
        }
    }
}

#[tactic(auto, unfolding(crate::specs::Reading::row_at))]
fn next_row<'a>(
    alloc: Global,
    total: usize,
    rows: &UpdateList,
    bytes: &'a [u8],
) -> Result<(Update, &'a [u8]), PartFault>
    ensures { Gives (λ x. (x.0, x.1.now)) result (row_at total (last_of rows.now) bytes.now) }
{
    let (row, rest) = next_fields(alloc, total, bytes)?;
    if may_follow(rows.as_slice(), &row) {
        Ok((row, rest))
    } else {
        Err(PartFault::Order {
            place: place_of(total, bytes),
        })
    }
}

// An empty list with memory for the rows of a part, or for as many as the bytes that are left can hold, if those are fewer.
fn room_for(alloc: Global, count: u32, left: usize) -> Result<UpdateList, AllocError>
    ensures { IfOk result (λ rows. rows ≡ []) }
{
    let most = left / LEAST_ROW;
    let items = Vec::with_capacity(alloc, most.min(count as usize))?;
    Ok(UpdateList::from_items(items))
}

fn next_rows(
    alloc: Global,
    total: usize,
    count: u32,
    bytes: &[u8],
) -> Result<(UpdateList, &[u8]), PartFault>
    ensures { Gives (λ x. (x.0, x.1.now)) result (rows_at total count None bytes.now) }
{
    let mut rows = room_for(alloc, count, bytes.len())?;
    let mut rest = bytes;
    for _ in 0..count {
        let (row, after) = next_row(alloc, total, &rows, rest)?;
        rows.push(row)?;
        rest = after;
    }
    Ok((rows, rest))
}

#[tactic(auto, unfolding(crate::specs::Reading::all_of))]
fn all_rows(alloc: Global, bytes: &[u8]) -> Result<UpdateList, PartFault>
    ensures { Gives (λ rows. rows) result (all_of bytes.now) }
{
    let total = bytes.len();
    let rest = after_magic(total, bytes)?;
    let rest = after_form(total, rest)?;
    let (count, rest) = next_count(total, rest)?;
    let (rows, rest) = next_rows(alloc, total, count, rest)?;
    if !rest.is_empty() {
        return Err(PartFault::Trailing {
            place: place_of(total, rest),
        });
    }
    Ok(rows)
}

/// The rows of the part with these bytes, all of the bytes. Else the first fault from the left, or `Memory`.
pub fn decode_part(alloc: Global, bytes: &[u8]) -> Result<UpdateList, PartFault>
    // What is read is a part.
    ensures found { IfOk result (λ rows. Part rows bytes.now) }
    // A part is read, unless memory runs out.
    ensures only { (rows : List Row) → Part rows bytes.now → Gives (λ found. found) result (Ok rows) }
    // Else it is the one fault that these bytes have, unless memory runs out.
    ensures refused { IfErr result (λ fault. (fault ≡ Memory) ⊎ IsRefused fault bytes.now) }
    // Which fault it is, and where.
    ensures exact { Gives (λ found. found) result (all_of bytes.now) }
{
    all_rows(alloc, bytes)
}

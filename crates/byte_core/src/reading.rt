// Reading of bytes and numbers.
ghost use Rattle.std.specs.Prelude.{◌≡◌};
ghost use Rattle.std.specs.Int.{w16, w32, w64};
ghost use Rattle.byte_core.specs.Reading.{Reads, byte_at, place, wide_at};

use crate::shorts::Short;

/// The place of the next byte, counted from 0, where these of so many bytes are left.
pub fn place_of(total: usize, rest: &[u8]) -> u64
    ensures { result ≡ place total rest.now }
{
    total.saturating_sub(rest.len()) as u64
}

fn short<T>(total: usize, bytes: &[u8]) -> Result<T, Short>
    ensures { result ≡ Err (record { place = place total bytes.now }) }
{
    Err(Short {
        place: place_of(total, bytes),
    })
}

/// A byte, and what is left after it.
pub fn next_byte(total: usize, bytes: &[u8]) -> Result<(u8, &[u8]), Short>
    ensures { Reads (λ x. (x.0, x.1.now)) result (byte_at total bytes.now) }
{
    match bytes {
        [] => short(total, bytes),
        [byte, rest @ ..] => Ok((*byte, rest)),
    }
}

/// A number of two bytes, and what is left after it.
pub fn next_u16(total: usize, bytes: &[u8]) -> Result<(u16, &[u8]), Short>
    ensures { Reads (λ x. (x.0, x.1.now)) result (wide_at w16 total bytes.now) }
{
    if bytes.len() < 2 {
        return short(total, bytes);
    }
    let (front, rest) = bytes.split_at(2);
    let number = u16::from_be_bytes([front[0], front[1]]);
    Ok((number, rest))
}

/// A number of four bytes, and what is left after it.
pub fn next_u32(total: usize, bytes: &[u8]) -> Result<(u32, &[u8]), Short>
    ensures { Reads (λ x. (x.0, x.1.now)) result (wide_at w32 total bytes.now) }
{
    if bytes.len() < 4 {
        return short(total, bytes);
    }
    let (front, rest) = bytes.split_at(4);
    let number = u32::from_be_bytes([front[0], front[1], front[2], front[3]]);
    Ok((number, rest))
}

/// A number of eight bytes, and what is left after it.
pub fn next_u64(total: usize, bytes: &[u8]) -> Result<(u64, &[u8]), Short>
    ensures { Reads (λ x. (x.0, x.1.now)) result (wide_at w64 total bytes.now) }
{
    if bytes.len() < 8 {
        return short(total, bytes);
    }
    let (front, rest) = bytes.split_at(8);
    let number = u64::from_be_bytes([
        front[0], front[1], front[2], front[3], front[4], front[5], front[6], front[7],
    ]);
    Ok((number, rest))
}

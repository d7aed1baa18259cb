// Reading of the fields of a version.
ghost use Rattle.std.specs.Prelude.{◌≡◌, ◌^◌};
ghost use Rattle.std.specs.Int.{w16, w32, w64};
ghost use Rattle.byte_core.specs.Reading.{place};
ghost use Rattle.version_codec.specs.Reading.{Gives, byte_at, wide_at, number_at, limited_at, below_at, magic, magic_at, form_at, time_at, frontier_at, kind_of, known_kind, kind_at};

use crate::version_faults::VersionFault;
use byte_core::{next_byte, next_u32, next_u64, place_of};
use state_core::Kind;
use update_core::Frontier;

// The letters PVER.
const MAGIC: u32 = 0x5056_4552;

#[tactic(auto, unfolding(crate::specs::Reading::number_at))]
pub(crate) fn next_number(total: usize, bytes: &[u8]) -> Result<(u64, &[u8]), VersionFault>
    ensures { Gives (λ x. (x.0, x.1.now)) result (number_at total bytes.now) }
{
    let (number, rest) = next_u64(total, bytes)?;
    Ok((number, rest))
}

#[tactic(auto, unfolding(crate::specs::Reading::limited_at))]
pub(crate) fn next_limited(
    total: usize,
    limit: u64,
    bytes: &[u8],
) -> Result<(u64, &[u8]), VersionFault>
    ensures { Gives (λ x. (x.0, x.1.now)) result (limited_at total limit bytes.now) }
{
    let (number, rest) = next_number(total, bytes)?;
    if limit < number {
        return Err(VersionFault::Rule {
            place: place_of(total, bytes),
        });
    }
    Ok((number, rest))
}

#[tactic(auto, unfolding(crate::specs::Reading::below_at))]
pub(crate) fn next_below(total: usize, end: u64, bytes: &[u8]) -> Result<(u64, &[u8]), VersionFault>
    ensures { Gives (λ x. (x.0, x.1.now)) result (below_at total end bytes.now) }
{
    let (number, rest) = next_number(total, bytes)?;
    if number < end {
        Ok((number, rest))
    } else {
        Err(VersionFault::Rule {
            place: place_of(total, bytes),
        })
    }
}

#[tactic(auto, unfolding(crate::specs::Reading::magic_at))]
pub(crate) fn after_magic(total: usize, bytes: &[u8]) -> Result<&[u8], VersionFault>
    ensures { Gives (λ x. x.now) result (magic_at total bytes.now) }
{
    let (number, rest) = next_u32(total, bytes)?;
    if number == MAGIC {
        Ok(rest)
    } else {
        Err(VersionFault::Magic {
            place: place_of(total, bytes),
        })
    }
}

#[tactic(auto, unfolding(crate::specs::Reading::form_at))]
pub(crate) fn after_form(total: usize, bytes: &[u8]) -> Result<&[u8], VersionFault>
    ensures { Gives (λ x. x.now) result (form_at total bytes.now) }
{
    let (form, rest) = next_byte(total, bytes)?;
    if form == 1 {
        Ok(rest)
    } else {
        Err(VersionFault::Form {
            place: place_of(total, bytes),
        })
    }
}

// The time of a frontier that begins at `start`.
#[tactic(auto, unfolding(crate::specs::Reading::time_at))]
fn next_time<'a>(
    total: usize,
    start: &[u8],
    bytes: &'a [u8],
) -> Result<(Option<u64>, &'a [u8]), VersionFault>
    ensures { Gives (λ x. (x.0, x.1.now)) result (time_at total start.now bytes.now) }
{
    if bytes.len() < 8 {
        return Err(VersionFault::Short {
            place: place_of(total, start),
        });
    }
    let (front, rest) = bytes.split_at(8);
    let time = u64::from_be_bytes([
        front[0], front[1], front[2], front[3], front[4], front[5], front[6], front[7],
    ]);
    Ok((Some(time), rest))
}

// A frontier, by its time; none where it is Closed.
#[tactic(auto, unfolding(crate::specs::Reading::frontier_at))]
pub(crate) fn next_frontier(
    total: usize,
    bytes: &[u8],
) -> Result<(Option<u64>, &[u8]), VersionFault>
    ensures { Gives (λ x. (x.0, x.1.now)) result (frontier_at total bytes.now) }
{
    let (tag, rest) = next_byte(total, bytes)?;
    if tag == 0 {
        return next_time(total, bytes, rest);
    }
    if tag == 1 {
        return Ok((None, rest));
    }
    Err(VersionFault::Tag {
        place: place_of(total, bytes),
    })
}

pub(crate) fn frontier_of(time: Option<u64>) -> Frontier
    ensures { result ≡ time }
{
    match time {
        Some(time) => Frontier::at(time),
        None => Frontier::closed(),
    }
}

#[tactic(auto, unfolding(crate::specs::Reading::kind_at))]
pub(crate) fn next_kind(total: usize, bytes: &[u8]) -> Result<(Kind, &[u8]), VersionFault>
    ensures { Gives (λ x. (x.0, x.1.now)) result (kind_at total bytes.now) }
{
    let (tag, rest) = next_byte(total, bytes)?;
    match tag {
        0 => Ok((Kind::Writer, rest)),
        1 => Ok((Kind::Reader, rest)),
        2 => Ok((Kind::Keeper, rest)),
        _ => Err(VersionFault::Tag {
            place: place_of(total, bytes),
        }),
    }
}

// Reading of versions.
ghost use Rattle.std.specs.Prelude.{◌≡◌, ◌<◌, ◌^◌, IfOk, Ok};
ghost use Rattle.state_core.specs.States.{ShardState, IsState};
ghost use Rattle.state_core.specs.Drafts.{drafted};
ghost use Rattle.version_codec.specs.Reading.{Gives, state_at, read_version};
ghost use Rattle.version_codec.specs.Versions.{VersionOf};
ghost use Rattle.state_core.specs.declared.transitions.Transition.{Transition as Step};

use crate::batch_fields::all_batches;
use crate::fields::{after_form, after_magic};
use crate::heads::{all_members, next_head};
use crate::steps::next_step;
use crate::version_faults::VersionFault;
use byte_core::place_of;
use state_core::{Draft, State, Transition};
use std::alloc::Global;
use store_core::ShardId;

#[tactic(auto, unfolding(crate::specs::Reading::state_at))]
fn next_draft(
    alloc: Global,
    total: usize,
    shard: ShardId,
    number: u64,
    bytes: &[u8],
) -> Result<(Draft, &[u8]), VersionFault>
    requires { total < 2 ^ 63 }
    ensures { Gives (λ x. (drafted x.0, x.1.now)) result (state_at total shard number bytes.now) }
{
    let (draft, rest) = next_head(alloc, total, shard, number, bytes)?;
    let (draft, rest) = all_members(total, draft, rest)?;
    all_batches(alloc, total, draft, rest)
}

#[tactic(auto, unfolding(crate::specs::Reading::read_version))]
fn whole_version(
    alloc: Global,
    shard: ShardId,
    number: u64,
    bytes: &[u8],
) -> Result<(State, Transition), VersionFault>
    ensures { Gives (λ x. (x.0, x.1)) result (read_version shard number bytes.now) }
{
    let total = bytes.len();
    let rest = after_magic(total, bytes)?;
    let rest = after_form(total, rest)?;
    let (draft, rest) = next_draft(alloc, total, shard, number, rest)?;
    let (step, rest) = next_step(alloc, total, &draft, rest)?;
    if !rest.is_empty() {
        return Err(VersionFault::Trailing {
            place: place_of(total, rest),
        });
    }
    Ok((State::of(draft), step))
}

/// The state and the transition of the version with these bytes, all of the bytes, which lies at this shard and number.
/// Else the first fault from the left, or `Memory`.
pub fn decode_version(
    alloc: Global,
    shard: ShardId,
    number: u64,
    bytes: &[u8],
) -> Result<(State, Transition), VersionFault>
    // What is read is a version of this shard and number.
    ensures found { IfOk result (λ x. VersionOf x.0 x.1 bytes.now × (x.0.shard ≡ shard) × (x.0.number ≡ number)) }
    // A version of this shard and number is read, unless memory runs out.
    ensures only { (s : ShardState) (x : Step) → s.shard ≡ shard → s.number ≡ number → VersionOf s x bytes.now → Gives {Y = ShardState × Step} (λ y. (y.0, y.1)) result (Ok (s, x)) }
    // Which fault it is, and where.
    ensures exact { Gives (λ y. (y.0, y.1)) result (read_version shard number bytes.now) }
{
    whole_version(alloc, shard, number, bytes)
}

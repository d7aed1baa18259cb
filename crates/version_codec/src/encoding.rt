// Writing of versions.
ghost use Rattle.std.specs.Prelude.{◌≡◌, ◌≤◌, ◌<◌, ◌∷◌, ◌++◌, [], length, OnOk, IfOk};
ghost use Rattle.std.specs.Int.{w16, to_be_bytes};
ghost use Rattle.std.specs.List.{AllByRecursion};
ghost use Rattle.update_core.specs.Limits.{max_members};
ghost use Rattle.state_core.specs.States.{IsState};
ghost use Rattle.state_core.specs.Steps.{acts_for, taken_by};
ghost use Rattle.version_codec.specs.Versions.{number_bytes, frontier_bytes, kind_byte, member_bytes, members_bytes, key_bytes, keys_bytes, batch_bytes, batches_bytes, state_bytes, step_bytes, version_spelling};
ghost use Rattle.version_codec.specs.Versions.{NumberFits, FrontierFits, MemberFits, PartKeyFits, PartKeysFit, BatchFits, BatchesFit, StateFits, StepFits, IsShapedAlone, IsBelow, VersionOf};

use spine_core::{Batch, KeyList};
use state_core::{Kind, Member, State, Transition};
use std::alloc::{AllocError, Global};
use store_core::{Bytes, PartKey};
use update_core::Frontier;

#[tactic(auto, unfolding(crate::specs::Versions::number_bytes))]
fn put_number(out: &mut Vec<u8>, number: u64) -> Result<(), AllocError>
    ensures written { OnOk result (out.new.items ≡ out.old.items ++ number_bytes number) }
    ensures fits { OnOk result (NumberFits number) }
{
    out.extend_from_slice(&number.to_be_bytes())?;
    Ok(())
}

fn put_frontier(out: &mut Vec<u8>, frontier: Frontier) -> Result<(), AllocError>
    ensures written { OnOk result (out.new.items ≡ out.old.items ++ frontier_bytes frontier) }
    ensures fits { OnOk result (FrontierFits frontier) }
{
    match frontier.time() {
        Some(time) => {
            out.push(0)?;
            put_number(out, time)
        }
        None => {
            out.push(1)?;
            Ok(())
        }
    }
}

fn byte_of(kind: Kind) -> u8
    ensures { result ≡ kind_byte kind }
{
    match kind {
        Kind::Writer => 0,
        Kind::Reader => 1,
        Kind::Keeper => 2,
    }
}

fn put_member(out: &mut Vec<u8>, member: &Member) -> Result<(), AllocError>
    ensures written { OnOk result (out.new.items ≡ out.old.items ++ member_bytes member.now) }
    ensures fits { OnOk result (MemberFits member.now) }
{
    put_number(out, member.number)?;
    out.push(byte_of(member.kind))?;
    put_number(out, member.since)?;
    put_number(out, member.hold)?;
    put_number(out, member.beat)?;
    put_number(out, member.lease)?;
    put_number(out, member.token)
}

fn put_key(out: &mut Vec<u8>, key: &PartKey) -> Result<(), AllocError>
    ensures written { OnOk result (out.new.items ≡ out.old.items ++ key_bytes key.now) }
    ensures fits { OnOk result (PartKeyFits key.now) }
{
    put_number(out, key.member)?;
    put_number(out, key.token)?;
    put_number(out, key.index)
}

#[tactic(auto, using(crate::proofs::Writing::each_more))]
fn put_key_slice(out: &mut Vec<u8>, keys: &[PartKey]) -> Result<(), AllocError>
    ensures written { OnOk result (out.new.items ≡ out.old.items ++ keys_bytes keys.now) }
    ensures fits { OnOk result (PartKeysFit keys.now) }
{
    put_number(out, keys.len() as u64)?;
    for key in keys {
        put_key(out, key)?;
    }
    Ok(())
}

fn put_keys(out: &mut Vec<u8>, keys: &KeyList) -> Result<(), AllocError>
    ensures written { OnOk result (out.new.items ≡ out.old.items ++ keys_bytes keys.now) }
    ensures fits { OnOk result (PartKeysFit keys.now) }
{
    put_key_slice(out, keys.as_slice())
}

fn put_batch(out: &mut Vec<u8>, batch: &Batch) -> Result<(), AllocError>
    ensures written { OnOk result (out.new.items ≡ out.old.items ++ batch_bytes batch.now) }
    ensures fits { OnOk result (BatchFits batch.now) }
{
    put_number(out, batch.desc.lower)?;
    put_frontier(out, batch.desc.upper)?;
    put_number(out, batch.desc.since)?;
    put_number(out, batch.rows)?;
    put_keys(out, &batch.parts)
}

#[tactic(auto, using(crate::proofs::Writing::each_more))]
fn put_members(out: &mut Vec<u8>, members: &[Member]) -> Result<(), AllocError>
    requires { length members.now ≤ max_members }
    ensures written { OnOk result (out.new.items ≡ out.old.items ++ members_bytes members.now) }
    ensures fits { OnOk result (AllByRecursion MemberFits members.now) }
{
    out.extend_from_slice(&(members.len() as u16).to_be_bytes())?;
    for member in members {
        put_member(out, member)?;
    }
    Ok(())
}

#[tactic(auto, using(crate::proofs::Writing::each_more))]
fn put_batches(out: &mut Vec<u8>, batches: &[Batch]) -> Result<(), AllocError>
    ensures written { OnOk result (out.new.items ≡ out.old.items ++ batches_bytes batches.now) }
    ensures fits { OnOk result (BatchesFit batches.now) }
{
    put_number(out, batches.len() as u64)?;
    for batch in batches {
        put_batch(out, batch)?;
    }
    Ok(())
}

fn put_state(out: &mut Vec<u8>, state: &State) -> Result<(), AllocError>
    ensures state { OnOk result (IsState state.now) }
    ensures written { OnOk result (out.new.items ≡ out.old.items ++ state_bytes state.now) }
    ensures fits { OnOk result (StateFits state.now) }
{
    put_number(out, state.next_member())?;
    put_number(out, state.since())?;
    put_frontier(out, state.upper())?;
    put_number(out, state.weight())?;
    put_members(out, state.members())?;
    put_batches(out, state.spine().batches())
}

// A tag and one number.
fn put_one(out: &mut Vec<u8>, tag: u8, first: u64) -> Result<(), AllocError>
    ensures written { OnOk result (out.new.items ≡ out.old.items ++ (tag ∷ number_bytes first)) }
    ensures fits { OnOk result (NumberFits first) }
{
    out.push(tag)?;
    put_number(out, first)
}

// A tag and two numbers.
fn put_two(out: &mut Vec<u8>, tag: u8, first: u64, second: u64) -> Result<(), AllocError>
    ensures written { OnOk result (out.new.items ≡ out.old.items ++ (tag ∷ (number_bytes first ++ number_bytes second))) }
    ensures fits { OnOk result (NumberFits first × NumberFits second) }
{
    put_one(out, tag, first)?;
    put_number(out, second)
}

fn put_join(out: &mut Vec<u8>, kind: Kind, now: u64, lease: u64) -> Result<(), AllocError>
    ensures written { OnOk result (out.new.items ≡ out.old.items ++ (1 ∷ (kind_byte kind ∷ (number_bytes now ++ number_bytes lease)))) }
    ensures fits { OnOk result (NumberFits now × NumberFits lease) }
{
    out.push(1)?;
    put_two(out, byte_of(kind), now, lease)
}

fn put_step(out: &mut Vec<u8>, step: &Transition) -> Result<(), AllocError>
    ensures written { OnOk result (out.new.items ≡ out.old.items ++ step_bytes step.now) }
    ensures fits { OnOk result (StepFits step.now) }
{
    match step {
        Transition::Init => {
            out.push(0)?;
            Ok(())
        }
        Transition::Join { kind, now, lease } => put_join(out, *kind, *now, *lease),
        Transition::Leave { member } => put_one(out, 2, *member),
        Transition::Renew { member, now } => put_two(out, 3, *member, *now),
        Transition::Advance { member, to } => put_two(out, 4, *member, *to),
        Transition::Expire { now } => put_one(out, 5, *now),
        Transition::Append {
            member,
            token,
            expected,
            new,
            parts,
            rows,
            weight,
        } => {
            put_two(out, 6, *member, *token)?;
            put_number(out, *expected)?;
            put_frontier(out, *new)?;
            put_number(out, *rows)?;
            put_number(out, *weight)?;
            put_keys(out, parts)
        }
        Transition::Merge {
            member,
            token,
            left,
            right,
            merged,
        } => {
            put_two(out, 7, *member, *token)?;
            put_batch(out, left)?;
            put_batch(out, right)?;
            put_batch(out, merged)
        }
    }
}

fn spelled(alloc: Global, state: &State, step: &Transition) -> Result<Vec<u8>, AllocError>
    ensures spelled { IfOk result (λ bytes. bytes.items ≡ version_spelling state.now step.now) }
    ensures state { OnOk result (IsState state.now) }
    ensures state_fits { OnOk result (StateFits state.now) }
    ensures step_fits { OnOk result (StepFits step.now) }
{
    let mut out = Vec::new(alloc);
    out.extend_from_slice(b"PVER\x01")?;
    put_state(&mut out, state)?;
    put_step(&mut out, step)?;
    Ok(out)
}

/// The bytes of the version with this state, made by this transition. It fails only for want of memory.
pub fn encode_version(alloc: Global, state: &State, step: &Transition) -> Result<Bytes, AllocError>
    requires shape { IsShapedAlone state.now.shard step.now }
    requires known { IsBelow (acts_for step.now) state.now.next_member }
    requires taken { AllByRecursion (λ k. k.shard ≡ state.now.shard) (taken_by step.now) }
    ensures { IfOk result (λ bytes. VersionOf state.now step.now bytes) }
{
    let bytes = spelled(alloc, state, step)?;
    Bytes::of(alloc, bytes)
}

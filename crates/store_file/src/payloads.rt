// A change as it stands in a record.
ghost use Rattle.std.specs.Prelude.{◌≡◌, ◌≤◌, ◌<◌, ◌^◌, ◌++◌, [], ◌∷◌, length, false, Some, OnOk, IfOk};
ghost use Rattle.std.specs.Option.{option_map};
ghost use Rattle.store_core.specs.Stores.{is_last_number, next_number as number_next};
ghost use Rattle.journal_core.specs.Records.{number_bytes, number_in};
ghost use Rattle.store_file.specs.Payloads.{number_at, shard_at, key_at, call_in, cas_in, truncate_in, set_in, delete_in, tagged};
ghost use Rattle.store_file.specs.Payloads.{payload_of, shard_bytes, key_bytes, expected_for, HasNext, IsChange, Fits, KeyFits};
ghost use Rattle.store_file.specs.Payloads.{ShardFits};

use journal_core::{Record, first_number};
use std::alloc::{AllocError, Global};
use store_core::{Bytes, Call, PartKey, ShardId};

#[tactic(auto, unfolding(crate::specs::Payloads::number_at))]
fn next_number(bytes: &[u8]) -> Option<(u64, &[u8])>
    ensures { option_map (λ x. (x.0, x.1.now)) result ≡ number_at bytes.now }
{
    if bytes.len() < 8 {
        return None;
    }
    let (_, rest) = bytes.split_at(8);
    Some((first_number(bytes), rest))
}

#[tactic(auto, unfolding(crate::specs::Payloads::shard_at))]
fn next_shard(bytes: &[u8]) -> Option<(ShardId, &[u8])>
    ensures { option_map (λ x. (x.0, x.1.now)) result ≡ shard_at bytes.now }
{
    let (high, rest) = next_number(bytes)?;
    let (low, rest) = next_number(rest)?;
    Some((ShardId(high as u128 * (1 << 64) + low as u128), rest))
}

#[tactic(auto, unfolding(crate::specs::Payloads::key_at))]
fn next_key(bytes: &[u8]) -> Option<(PartKey, &[u8])>
    ensures { option_map (λ x. (x.0, x.1.now)) result ≡ key_at bytes.now }
{
    let (shard, rest) = next_shard(bytes)?;
    let (member, rest) = next_number(rest)?;
    let (token, rest) = next_number(rest)?;
    let (index, rest) = next_number(rest)?;
    Some((
        PartKey {
            shard,
            member,
            token,
            index,
        },
        rest,
    ))
}

fn owned(alloc: Global, bytes: &[u8]) -> Result<Bytes, AllocError>
    ensures { IfOk result (λ b. b ≡ bytes.now) }
{
    Bytes::of(alloc, Vec::from_slice(alloc, bytes)?)
}

fn expected_before(number: u64) -> Option<u64>
    ensures { result ≡ expected_for number }
{
    if number == 0 { None } else { Some(number - 1) }
}

#[tactic(auto, unfolding(crate::specs::Payloads::cas_in))]
fn read_cas(alloc: Global, bytes: &[u8]) -> Result<Option<Call>, AllocError>
    ensures { IfOk result (λ call. call ≡ cas_in bytes.now) }
{
    let Some((shard, rest)) = next_shard(bytes) else {
        return Ok(None);
    };
    let Some((number, rest)) = next_number(rest) else {
        return Ok(None);
    };
    let bytes = owned(alloc, rest)?;
    let expected = expected_before(number);
    Ok(Some(Call::Cas {
        shard,
        expected,
        bytes,
    }))
}

#[tactic(auto, unfolding(crate::specs::Payloads::truncate_in))]
fn read_truncate(bytes: &[u8]) -> Option<Call>
    ensures { result ≡ truncate_in bytes.now }
{
    let (shard, rest) = next_shard(bytes)?;
    let (below, rest) = next_number(rest)?;
    match rest {
        [] => Some(Call::Truncate { shard, below }),
        _ => None,
    }
}

#[tactic(auto, unfolding(crate::specs::Payloads::set_in))]
fn read_set(alloc: Global, bytes: &[u8]) -> Result<Option<Call>, AllocError>
    ensures { IfOk result (λ call. call ≡ set_in bytes.now) }
{
    let Some((key, rest)) = next_key(bytes) else {
        return Ok(None);
    };
    let bytes = owned(alloc, rest)?;
    Ok(Some(Call::Set { key, bytes }))
}

#[tactic(auto, unfolding(crate::specs::Payloads::delete_in))]
fn read_delete(bytes: &[u8]) -> Option<Call>
    ensures { result ≡ delete_in bytes.now }
{
    let (key, rest) = next_key(bytes)?;
    match rest {
        [] => Some(Call::Delete { key }),
        _ => None,
    }
}

/// The change of a payload, where it is one. It fails only for want of memory.
pub(crate) fn read_call(alloc: Global, payload: &[u8]) -> Result<Option<Call>, AllocError>
    ensures { IfOk result (λ call. call ≡ call_in payload.now) }
{
    match payload {
        [1, rest @ ..] => read_cas(alloc, rest),
        [2, rest @ ..] => Ok(read_truncate(rest)),
        [3, rest @ ..] => read_set(alloc, rest),
        [4, rest @ ..] => Ok(read_delete(rest)),
        _ => Ok(None),
    }
}

#[tactic(auto, unfolding(journal_core::specs::Records::number_bytes))]
fn put_number(out: &mut Vec<u8>, number: u64) -> Result<(), AllocError>
    ensures fits { number < 2 ^ 64 }
    ensures written { OnOk result (out.new.items ≡ out.old.items ++ number_bytes number) }
{
    out.extend_from_slice(&number.to_be_bytes())?;
    Ok(())
}

fn put_shard(out: &mut Vec<u8>, shard: ShardId) -> Result<(), AllocError>
    ensures written { OnOk result (out.new.items ≡ out.old.items ++ shard_bytes shard) }
    ensures fits { ShardFits shard }
{
    put_number(out, (shard.0 / (1 << 64)) as u64)?;
    put_number(out, (shard.0 % (1 << 64)) as u64)?;
    Ok(())
}

fn put_key(out: &mut Vec<u8>, key: PartKey) -> Result<(), AllocError>
    ensures written { OnOk result (out.new.items ≡ out.old.items ++ key_bytes key) }
    ensures fits { KeyFits key }
{
    put_shard(out, key.shard)?;
    put_number(out, key.member)?;
    put_number(out, key.token)?;
    put_number(out, key.index)?;
    Ok(())
}

fn put_bytes(out: &mut Vec<u8>, bytes: &Bytes) -> Result<(), AllocError>
    ensures { OnOk result (out.new.items ≡ out.old.items ++ bytes.now) }
{
    out.extend_from_slice(bytes.as_slice())?;
    Ok(())
}

fn number_after(expected: Option<u64>) -> u64
    requires { is_last_number expected ≡ false }
    ensures { result ≡ number_next expected }
{
    match expected {
        None => 0,
        Some(number) => number + 1,
    }
}

fn put_call(out: &mut Vec<u8>, call: &Call) -> Result<(), AllocError>
    requires { HasNext call.now }
    ensures written { OnOk result (out.new.items ≡ out.old.items ++ payload_of call.now) }
    ensures fits { OnOk result (Fits call.now) }
{
    match call {
        Call::Cas {
            shard,
            expected,
            bytes,
        } => {
            out.push(1)?;
            put_shard(out, *shard)?;
            put_number(out, number_after(*expected))?;
            put_bytes(out, bytes)
        }
        Call::Truncate { shard, below } => {
            out.push(2)?;
            put_shard(out, *shard)?;
            put_number(out, *below)
        }
        Call::Set { key, bytes } => {
            out.push(3)?;
            put_key(out, *key)?;
            put_bytes(out, bytes)
        }
        Call::Delete { key } => {
            out.push(4)?;
            put_key(out, *key)
        }
        Call::Head { .. } | Call::Scan { .. } | Call::Get { .. } => Ok(()),
    }
}

fn payload(alloc: Global, call: &Call) -> Result<Vec<u8>, AllocError>
    requires { HasNext call.now }
    ensures spelled { IfOk result (λ payload. payload.items ≡ payload_of call.now) }
    ensures read { IfOk result (λ payload. IsChange call.now → call_in payload.items ≡ Some call.now) }
{
    let mut out = Vec::new(alloc);
    put_call(&mut out, call)?;
    Ok(out)
}

/// The record of a change. It fails only for want of memory.
pub(crate) fn record_of(alloc: Global, call: &Call) -> Result<Record, AllocError>
    requires { HasNext call.now }
    ensures spelled { IfOk result (λ change. change ≡ payload_of call.now) }
    ensures read { IfOk result (λ change. IsChange call.now → call_in change ≡ Some call.now) }
{
    let payload = payload(alloc, call)?;
    Record::of(alloc, &payload)
}

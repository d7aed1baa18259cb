// The texts of what `reclock` prints.
ghost use Rattle.std.specs.Prelude.{◌≡◌, ◌∷◌, [], ◌++◌, codes, OnOk, OnErr};
ghost use Rattle.std.specs.Fmt.{decimal, signed_decimal};
ghost use Rattle.std.specs.List.{flat_map};
ghost use Rattle.feed_text.specs.Replies.{update_text, Extends};
ghost use Rattle.reclock_text.specs.Replies.{binding_text, bindings_text, block_text, data_text, operator_text, seen, seen_from, unbound_text};
ghost use Rattle.reclock_text.specs.Saws.{pair_text};

use itoa::Buffer;
use remap_core::{Bindings, SourceFrontier};
use std::alloc::AllocError;
use update_core::{Update, UpdateList};

// Puts bytes at the end.
fn put(out: &mut Vec<u8>, bytes: &[u8]) -> Result<(), AllocError>
    ensures ok { OnOk result (out.new.items ≡ out.old.items ++ bytes.now) }
    ensures err { OnErr result (Extends out.old.items out.new.items) }
{
    out.extend_from_slice(bytes)
}

fn put_number(out: &mut Vec<u8>, number: u64) -> Result<(), AllocError>
    ensures ok { OnOk result (out.new.items ≡ out.old.items ++ decimal number) }
    ensures err { OnErr result (Extends out.old.items out.new.items) }
{
    let mut buffer = Buffer::new();
    put(out, buffer.format(number).as_bytes())
}

fn put_difference(out: &mut Vec<u8>, diff: i64) -> Result<(), AllocError>
    ensures ok { OnOk result (out.new.items ≡ out.old.items ++ signed_decimal diff) }
    ensures err { OnErr result (Extends out.old.items out.new.items) }
{
    let mut buffer = Buffer::new();
    put(out, buffer.format(diff).as_bytes())
}

fn put_update(out: &mut Vec<u8>, update: &Update) -> Result<(), AllocError>
    ensures ok { OnOk result (out.new.items ≡ out.old.items ++ update_text update.now) }
    ensures err { OnErr result (Extends out.old.items out.new.items) }
{
    put_number(out, update.time)?;
    put(out, b" ")?;
    put_difference(out, update.diff)?;
    put(out, b" ")?;
    put(out, update.datum.bytes())?;
    put(out, b"\n")
}

fn put_updates(out: &mut Vec<u8>, updates: &[Update]) -> Result<(), AllocError>
    ensures ok { OnOk result (out.new.items ≡ out.old.items ++ flat_map update_text updates.now) }
    ensures err { OnErr result (Extends out.old.items out.new.items) }
{
    for update in updates {
        put_update(out, update)?;
    }
    Ok(())
}

// Updates, and the dot after them.
fn put_block(out: &mut Vec<u8>, updates: &[Update]) -> Result<(), AllocError>
    ensures ok { OnOk result (out.new.items ≡ out.old.items ++ block_text updates.now) }
    ensures err { OnErr result (Extends out.old.items out.new.items) }
{
    put_updates(out, updates)?;
    put(out, b".\n")
}

/// Puts an operator's own collection at the end, behind its number. Where memory is refused, some of it may be there.
pub fn print_operator(
    out: &mut Vec<u8>,
    operator: u32,
    updates: &UpdateList,
) -> Result<(), AllocError>
    ensures ok { OnOk result (out.new.items ≡ out.old.items ++ operator_text operator updates.now) }
    ensures err { OnErr result (Extends out.old.items out.new.items) }
{
    put(out, b"operator ")?;
    put_number(out, u64::from(operator))?;
    put(out, b"\n")?;
    put_block(out, updates.as_slice())
}

/// Puts the updates of the data shard at the end. Where memory is refused, some of it may be there.
pub fn print_data(out: &mut Vec<u8>, updates: &UpdateList) -> Result<(), AllocError>
    ensures ok { OnOk result (out.new.items ≡ out.old.items ++ data_text updates.now) }
    ensures err { OnErr result (Extends out.old.items out.new.items) }
{
    put(out, b"data\n")?;
    put_block(out, updates.as_slice())
}

/// Puts the number of rows without a time at the end. Where memory is refused, some of it may be there.
pub fn print_unbound(out: &mut Vec<u8>, count: u64) -> Result<(), AllocError>
    ensures ok { OnOk result (out.new.items ≡ out.old.items ++ unbound_text count) }
    ensures err { OnErr result (Extends out.old.items out.new.items) }
{
    put(out, b"unbound ")?;
    put_number(out, count)?;
    put(out, b"\n")
}

// ` P:O`, where the offset isn't 0.
fn put_pair(out: &mut Vec<u8>, partition: u8, offset: u64) -> Result<(), AllocError>
    ensures ok { OnOk result (out.new.items ≡ out.old.items ++ seen (partition, offset)) }
    ensures err { OnErr result (Extends out.old.items out.new.items) }
{
    if offset == 0 {
        return Ok(());
    }
    put(out, b" ")?;
    put_number(out, u64::from(partition))?;
    put(out, b":")?;
    put_number(out, offset)
}

// The pairs of a frontier whose offsets aren't 0.
fn put_seen(out: &mut Vec<u8>, frontier: &SourceFrontier) -> Result<(), AllocError>
    ensures ok { OnOk result (out.new.items ≡ out.old.items ++ seen_from 0 frontier.now) }
    ensures err { OnErr result (Extends out.old.items out.new.items) }
{
    for partition in 0..=u8::MAX {
        put_pair(out, partition, frontier.get(partition))?;
    }
    Ok(())
}

fn put_binding(out: &mut Vec<u8>, time: u64, frontier: &SourceFrontier) -> Result<(), AllocError>
    ensures ok { OnOk result (out.new.items ≡ out.old.items ++ binding_text (time, frontier.now)) }
    ensures err { OnErr result (Extends out.old.items out.new.items) }
{
    put(out, b"bind ")?;
    put_number(out, time)?;
    put_seen(out, frontier)?;
    put(out, b"\n")
}

/// Puts each binding on a line at the end. Where memory is refused, some of it may be there.
pub fn print_bindings(out: &mut Vec<u8>, bindings: &Bindings) -> Result<(), AllocError>
    ensures ok { OnOk result (out.new.items ≡ out.old.items ++ bindings_text bindings.now) }
    ensures err { OnErr result (Extends out.old.items out.new.items) }
{
    for place in 0..bindings.len() {
        let (time, frontier) = bindings.at(place);
        put_binding(out, time, frontier)?;
    }
    Ok(())
}

// The text of a reply.
ghost use Rattle.std.specs.Prelude.{◌≡◌, ◌∷◌, [], ◌++◌, codes, OnOk, OnErr};
ghost use Rattle.std.specs.Fmt.{decimal, signed_decimal};
ghost use Rattle.std.specs.List.{flat_map};
ghost use Rattle.feed_text.specs.Grammar.{frontier_text};
ghost use Rattle.feed_text.specs.Replies.{row_text, update_text, reply_text, line_fault_text, Extends};

use crate::replies::RunReply;
use itoa::Buffer;
use std::alloc::AllocError;
use update_core::{Frontier, Row, Update};

// Puts bytes at the end.
fn put(out: &mut Vec<u8>, bytes: &[u8]) -> Result<(), AllocError>
    ensures ok { OnOk result (out.new.items ≡ out.old.items ++ bytes.now) }
    ensures err { OnErr result (Extends out.old.items out.new.items) }
{
    out.extend_from_slice(bytes)
}

fn put_number(out: &mut Vec<u8>, number: u64) -> Result<(), AllocError>
    ensures ok { OnOk result (out.new.items ≡ out.old.items ++ decimal number) }
    ensures err { OnErr result (Extends out.old.items out.new.items) }
{
    let mut buffer = Buffer::new();
    put(out, buffer.format(number).as_bytes())
}

fn put_difference(out: &mut Vec<u8>, diff: i64) -> Result<(), AllocError>
    ensures ok { OnOk result (out.new.items ≡ out.old.items ++ signed_decimal diff) }
    ensures err { OnErr result (Extends out.old.items out.new.items) }
{
    let mut buffer = Buffer::new();
    put(out, buffer.format(diff).as_bytes())
}

fn put_frontier(out: &mut Vec<u8>, frontier: Frontier) -> Result<(), AllocError>
    ensures ok { OnOk result (out.new.items ≡ out.old.items ++ frontier_text frontier) }
    ensures err { OnErr result (Extends out.old.items out.new.items) }
{
    match frontier.time() {
        Some(t) => put_number(out, t),
        None => put(out, b"closed"),
    }
}

// A word and a number on a line.
fn put_number_line(out: &mut Vec<u8>, word: &[u8], number: u64) -> Result<(), AllocError>
    ensures ok { OnOk result (out.new.items ≡ out.old.items ++ (word.now ++ (decimal number ++ 10 ∷ []))) }
    ensures err { OnErr result (Extends out.old.items out.new.items) }
{
    put(out, word)?;
    put_number(out, number)?;
    put(out, b"\n")
}

// A word and a frontier on a line.
fn put_frontier_line(out: &mut Vec<u8>, word: &[u8], frontier: Frontier) -> Result<(), AllocError>
    ensures ok { OnOk result (out.new.items ≡ out.old.items ++ (word.now ++ (frontier_text frontier ++ 10 ∷ []))) }
    ensures err { OnErr result (Extends out.old.items out.new.items) }
{
    put(out, word)?;
    put_frontier(out, frontier)?;
    put(out, b"\n")
}

fn put_row(out: &mut Vec<u8>, row: &Row) -> Result<(), AllocError>
    ensures ok { OnOk result (out.new.items ≡ out.old.items ++ row_text row.now) }
    ensures err { OnErr result (Extends out.old.items out.new.items) }
{
    put_difference(out, row.diff)?;
    put(out, b" ")?;
    put(out, row.datum.bytes())?;
    put(out, b"\n")
}

fn put_rows(out: &mut Vec<u8>, rows: &[Row]) -> Result<(), AllocError>
    ensures ok { OnOk result (out.new.items ≡ out.old.items ++ flat_map row_text rows.now) }
    ensures err { OnErr result (Extends out.old.items out.new.items) }
{
    for row in rows {
        put_row(out, row)?;
    }
    Ok(())
}

// Rows, and the dot after them.
fn put_content(out: &mut Vec<u8>, rows: &[Row]) -> Result<(), AllocError>
    ensures ok { OnOk result (out.new.items ≡ out.old.items ++ (flat_map row_text rows.now ++ (46 ∷ 10 ∷ []))) }
    ensures err { OnErr result (Extends out.old.items out.new.items) }
{
    put_rows(out, rows)?;
    put(out, b".\n")
}

fn put_update(out: &mut Vec<u8>, update: &Update) -> Result<(), AllocError>
    ensures ok { OnOk result (out.new.items ≡ out.old.items ++ update_text update.now) }
    ensures err { OnErr result (Extends out.old.items out.new.items) }
{
    put_number(out, update.time)?;
    put(out, b" ")?;
    put_difference(out, update.diff)?;
    put(out, b" ")?;
    put(out, update.datum.bytes())?;
    put(out, b"\n")
}

fn put_updates(out: &mut Vec<u8>, updates: &[Update]) -> Result<(), AllocError>
    ensures ok { OnOk result (out.new.items ≡ out.old.items ++ flat_map update_text updates.now) }
    ensures err { OnErr result (Extends out.old.items out.new.items) }
{
    for update in updates {
        put_update(out, update)?;
    }
    Ok(())
}

// Updates, and the frontier up to which they are all.
fn put_step(out: &mut Vec<u8>, updates: &[Update], upper: Frontier) -> Result<(), AllocError>
    ensures ok { OnOk result (out.new.items ≡ out.old.items ++ (flat_map update_text updates.now ++ (codes "upto " ++ (frontier_text upper ++ 10 ∷ [])))) }
    ensures err { OnErr result (Extends out.old.items out.new.items) }
{
    put_updates(out, updates)?;
    put_frontier_line(out, b"upto ", upper)
}

/// Puts the text of a reply at the end. Where memory is refused, some of it may be there.
pub fn print_reply(out: &mut Vec<u8>, reply: &RunReply) -> Result<(), AllocError>
    ensures ok { OnOk result (out.new.items ≡ out.old.items ++ reply_text reply.now) }
    ensures err { OnErr result (Extends out.old.items out.new.items) }
{
    match reply {
        RunReply::Accepted => put(out, b"ok\n"),
        RunReply::Empty => put(out, b"empty\n"),
        RunReply::Range { row } => put_number_line(out, b"range ", *row),
        RunReply::Mismatch { upper } => put_frontier_line(out, b"mismatch ", *upper),
        RunReply::Heavy { weight } => put_number_line(out, b"heavy ", *weight),
        RunReply::Rows(rows) => put_content(out, rows.as_slice()),
        RunReply::Early { since } => put_number_line(out, b"early ", *since),
        RunReply::Late { upper } => put_frontier_line(out, b"late ", *upper),
        RunReply::Step { updates, upper } => put_step(out, updates.as_slice(), *upper),
        RunReply::Ended => put(out, b"ended\n"),
        RunReply::Quiet { upper } => put_frontier_line(out, b"quiet ", *upper),
        RunReply::Back { since } => put_number_line(out, b"back ", *since),
    }
}

/// Puts the line that tells where a text stops being a feed at the end. Where memory is refused, some of it may be there.
pub fn print_line_fault(out: &mut Vec<u8>, number: u64) -> Result<(), AllocError>
    ensures ok { OnOk result (out.new.items ≡ out.old.items ++ line_fault_text number) }
    ensures err { OnErr result (Extends out.old.items out.new.items) }
{
    put_number_line(out, b"line ", number)
}

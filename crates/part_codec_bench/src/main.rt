//! Encodes, decodes or copies a full part so many times, for a clock outside to time: `encode COUNT`, `decode COUNT` or
//! `copy COUNT` prints the bytes of one part. `read` prints for each line of standard input, which is hex, what the part
//! with these bytes is.
#![tactic(auto)]

ghost use Rattle.std.specs.Prelude.{◌≤◌, IfOk, length};
ghost use Rattle.part_codec.specs.Parts.{NonZero, Rising};

use anyhow::{Context, Result, bail};
use part_codec::{PartFault, decode_part, encode_part};
use std::alloc::Global;
use std::env;
use std::rt::Env;
use update_core::{Datum, Update, UpdateList, consolidate, weight};

// As many rows as a part may have, each with a datum of nine bytes.
fn rows(alloc: Global) -> Result<UpdateList>
    ensures few { IfOk result (λ rows. length rows ≤ 4096) }
    ensures rising { IfOk result (λ rows. Rising rows) }
    ensures nonzero { IfOk result (λ rows. NonZero rows) }
{
    let mut rows = UpdateList::new(alloc);
    for number in 0u64..4_096 {
        let text = format!(in alloc; "key{number:06}")?;
        let Ok(datum) = Datum::of(alloc, text.as_bytes()) else {
            bail!("no datum");
        };
        rows.push(Update {
            datum,
            time: number,
            diff: 1,
        })?;
    }
    if weight(&rows) > 1 << 62 {
        bail!("too heavy");
    }
    let rows = consolidate(alloc, rows)?;
    if rows.as_slice().len() > 4_096 {
        bail!("too many rows");
    }
    Ok(rows)
}

fn encode(alloc: Global, count: u64) -> Result<usize> {
    let rows = rows(alloc)?;
    let mut last = 0;
    for _ in 0..count {
        last = encode_part(alloc, rows.as_slice())?.as_slice().len();
    }
    Ok(last)
}

fn decode(alloc: Global, count: u64) -> Result<usize> {
    let rows = rows(alloc)?;
    let part = encode_part(alloc, rows.as_slice())?;
    for _ in 0..count {
        if decode_part(alloc, part.as_slice()).is_err() {
            bail!("not read");
        }
    }
    Ok(part.as_slice().len())
}

fn copy(alloc: Global, count: u64) -> Result<usize> {
    let rows = rows(alloc)?;
    let part = encode_part(alloc, rows.as_slice())?;
    let mut last = 0;
    for _ in 0..count {
        last = part.as_slice().to_vec(alloc)?.len();
    }
    Ok(last)
}

// What the part with these bytes is, as one line.
fn answer(rt: &impl Print, alloc: Global, bytes: &[u8]) -> Result<()> {
    match decode_part(alloc, bytes) {
        Ok(rows) => println!(rt; "rows {}", rows.as_slice().len())?,
        Err(PartFault::Short { place }) => println!(rt; "short {place}")?,
        Err(PartFault::Magic { place }) => println!(rt; "magic {place}")?,
        Err(PartFault::Form { place }) => println!(rt; "form {place}")?,
        Err(PartFault::Size { place }) => println!(rt; "size {place}")?,
        Err(PartFault::Order { place }) => println!(rt; "order {place}")?,
        Err(PartFault::Zero { place }) => println!(rt; "zero {place}")?,
        Err(PartFault::Trailing { place }) => println!(rt; "trailing {place}")?,
        Err(PartFault::Memory) => bail!("out of memory"),
    }
    Ok(())
}

fn read(rt: &(impl Input + Print + AllocGlobal), alloc: Global) -> Result<()> {
    for line in rt.lines(alloc) {
        let Ok(bytes) = hex::decode(alloc, line?) else {
            bail!("a line is no hex");
        };
        answer(rt, alloc, &bytes)?;
    }
    Ok(())
}

fn time(alloc: Global, what: &str, count: u64) -> Result<usize> {
    match what {
        "encode" => encode(alloc, count),
        "decode" => decode(alloc, count),
        "copy" => copy(alloc, count),
        _ => bail!("encode, decode, copy or read"),
    }
}

fn run(rt: &(impl Env + Input + Print + AllocGlobal), alloc: Global) -> Result<()> {
    let mut words = env::args(rt)?.skip(1);
    let what = words.next().context("encode, decode, copy or read")?;
    if what.as_str() == "read" {
        return read(rt, alloc);
    }
    let count = words.next().context("how often")?;
    let count = count.as_str().parse::<u64>().context("a number")?;
    println!(rt; "{}", time(alloc, what.as_str(), count)?)?;
    Ok(())
}

fn main(rt: HostRuntime) -> Result<()> {
    run(&rt, rt.alloc())
}

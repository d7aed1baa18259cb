//! Executes schedules, each over a store of its own in memory, and prints what `steps` says of them. On standard input each schedule
//! stands behind a line that names the calls that fail, and before an empty line.
#![tactic(auto)]

mod cases;

use anyhow::{Result, bail};
use cases::Case;
use causes::NumberList;
use driving::SolePort;
use feed_text::{MemSource, Sink, WriterSink, print_line_fault, put_all};
use std::alloc::Global;
use step_run::{Ending, steps};
use store_core::{MemStore, ShardId};

// The last line of a schedule that ends so.
fn last_line(alloc: Global, ending: Ending) -> Result<Vec<u8>> {
    let mut line = Vec::new(alloc);
    match ending {
        Ending::Complete => {}
        Ending::BadLine { number } => print_line_fault(&mut line, number)?,
        Ending::StoreFailed => line.extend_from_slice(b"store failed\n")?,
        Ending::Damaged => line.extend_from_slice(b"damaged\n")?,
        Ending::Spent => line.extend_from_slice(b"spent\n")?,
        Ending::InputFailed | Ending::OutputFailed | Ending::Memory => bail!("not ended"),
    }
    Ok(line)
}

fn print<Si: Sink>(out: &mut Si, bytes: &[u8]) -> Result<()> {
    match put_all(out, bytes) {
        Ok(()) => Ok(()),
        Err(_) => bail!("not printed"),
    }
}

// What is said of a schedule, and an empty line.
fn say<Si: Sink>(alloc: Global, case: Case, out: &mut Si) -> Result<()> {
    let mut source = MemSource::new(case.text, NumberList::new(alloc));
    let mut port = SolePort {
        store: MemStore::new(alloc, case.fails),
        client: 0,
    };
    let ending = steps(alloc, &mut source, out, &mut port, ShardId(1));
    print(out, last_line(alloc, ending)?.as_slice())?;
    print(out, b"\n")
}

fn main(rt: HostRuntime) -> Result<()> {
    let alloc = rt.alloc();
    let mut out = WriterSink::new(rt.stdout());
    let mut open: Option<Case> = None;
    for line in rt.lines(alloc) {
        let line = line?;
        open = match open {
            None => Some(Case::of(alloc, line.as_str())?),
            Some(case) if line.as_str().is_empty() => {
                say(alloc, case, &mut out)?;
                None
            }
            Some(case) => Some(case.with_line(line.as_str())?),
        };
    }
    if open.is_some() {
        bail!("the last schedule has no end");
    }
    Ok(())
}

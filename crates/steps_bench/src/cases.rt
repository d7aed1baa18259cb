// Schedules to execute.
use anyhow::{Context, Result, bail};
use std::alloc::Global;
use store_core::{FaultAt, FaultList};

/// A schedule, and which calls of the store fail.
#[derive(Drop)]
pub struct Case {
    pub fails: FaultList,
    pub text: Vec<u8>,
}

// A call that fails: its number, and a sign that says whether it takes effect.
fn fault_of(word: &str) -> Result<FaultAt> {
    let (number, took) = match word.strip_suffix("+") {
        Some(number) => (number, true),
        None => (word.strip_suffix("-").context("a sign")?, false),
    };
    Ok(FaultAt {
        number: number.parse::<u64>().context("a number has digits")?,
        took,
    })
}

impl Case {
    /// A schedule that has no lines yet: `fails`, and then each call that fails.
    pub fn of(alloc: Global, line: &str) -> Result<Case> {
        let mut words = line.split_whitespace();
        if words.next() != Some("fails") {
            bail!("which calls fail?");
        }
        let mut fails = FaultList::new(alloc);
        for word in words {
            fails.push(fault_of(word)?)?;
        }
        Ok(Case {
            fails,
            text: Vec::new(alloc),
        })
    }

    /// The same with one line more.
    pub fn with_line(self, line: &str) -> Result<Case> {
        let Case { fails, mut text } = self;
        text.extend_from_slice(line.as_bytes())?;
        text.extend_from_slice(b"\n")?;
        Ok(Case { fails, text })
    }
}

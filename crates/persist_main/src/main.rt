//! The program `persist`: reads standard input, writes standard output, and ends with the command's status.
#![tactic(auto)]

use crew::OpenGate;
use feed_text::{ReaderSource, WriterSink, put_all};
use persist_app::{SystemClock, persist_top};
use std::alloc::Global;
use std::io::ErrorKind;
use std::process::ExitCode;
use std::rt::Env;
use std::{env, io};
use store_core::{FaultList, MemStore};

// The arguments without the program's name.
fn words(rt: &(impl Env + AllocGlobal), alloc: Global) -> io::Result<Vec<String>> {
    let mut words = Vec::new(alloc);
    for word in env::args(rt)?.skip(1) {
        words.push(word)?;
    }
    Ok(words)
}

fn main(rt: HostRuntime) -> ExitCode {
    let alloc = rt.alloc();
    let mut sink = WriterSink::new(rt.stdout());
    let words = match words(&rt, alloc) {
        Ok(words) => words,
        Err(error) if error.kind() == ErrorKind::OutOfMemory => {
            return match put_all(&mut sink, b"memory\n") {
                Ok(()) => ExitCode::from(8),
                Err(_) => ExitCode::from(5),
            };
        }
        // A word that isn't UTF-8 is none of a command's, and so are no words at all.
        Err(_) => Vec::new(alloc),
    };
    let mut source = ReaderSource::new(rt.stdin());
    let mut clock = SystemClock::new(&rt);
    let store = MemStore::new(alloc, FaultList::new(alloc));
    let ended = persist_top(
        &rt,
        alloc,
        &words,
        &mut source,
        &mut sink,
        store,
        &mut clock,
        &OpenGate,
    );
    ExitCode::from(ended.status)
}

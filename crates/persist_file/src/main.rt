//! The program `persist_file`: like `persist`, over a store in the file that its first argument names.
#![tactic(auto)]

use crew::OpenGate;
use feed_text::{ReaderSource, WriterSink, put_all};
use journal_core::FileDisk;
use persist_app::{SystemClock, persist_on_disk, persist_top};
use std::alloc::Global;
use std::io::ErrorKind;
use std::process::ExitCode;
use std::rt::Env;
use std::{env, io};
use store_core::{FaultList, MemStore};

// The path of the file, and the words that come after it.
#[derive(Drop)]
struct Arguments {
    path: Option<String>,
    words: Vec<String>,
}

impl Arguments {
    fn none(alloc: Global) -> Arguments {
        Arguments {
            path: None,
            words: Vec::new(alloc),
        }
    }
}

// The arguments without the program's name.
fn read_arguments(rt: &(impl Env + AllocGlobal), alloc: Global) -> io::Result<Arguments> {
    let mut arguments = Arguments::none(alloc);
    for word in env::args(rt)?.skip(1) {
        if arguments.path.is_none() {
            arguments.path = Some(word);
        } else {
            arguments.words.push(word)?;
        }
    }
    Ok(arguments)
}

fn main(rt: HostRuntime) -> ExitCode {
    let alloc = rt.alloc();
    let mut sink = WriterSink::new(rt.stdout());
    let Arguments { path, words } = match read_arguments(&rt, alloc) {
        Ok(arguments) => arguments,
        Err(error) if error.kind() == ErrorKind::OutOfMemory => {
            return match put_all(&mut sink, b"memory\n") {
                Ok(()) => ExitCode::from(8),
                Err(_) => ExitCode::from(5),
            };
        }
        // A word that isn't UTF-8 is none of a command's, and so are no words at all.
        Err(_) => Arguments::none(alloc),
    };
    let mut source = ReaderSource::new(rt.stdin());
    let mut clock = SystemClock::new(&rt);
    let Some(path) = path else {
        let store = MemStore::new(alloc, FaultList::new(alloc));
        let ended = persist_top(
            &rt,
            alloc,
            &words,
            &mut source,
            &mut sink,
            store,
            &mut clock,
            &OpenGate,
        );
        return ExitCode::from(ended.status);
    };
    let disk = FileDisk::open(&rt, path.as_str());
    let ended = persist_on_disk(
        &rt,
        alloc,
        &words,
        &mut source,
        &mut sink,
        disk,
        &mut clock,
        &OpenGate,
    );
    ExitCode::from(ended.status)
}

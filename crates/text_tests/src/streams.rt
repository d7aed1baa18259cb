use causes::NumberList;
use feed_text::*;
use std::alloc::{AllocError, Global};
use std::io;
use std::test::Fail;

fn numbers(alloc: Global, items: &[u64]) -> Result<NumberList, AllocError> {
    let mut numbers = NumberList::new(alloc);
    for item in items {
        numbers.push(*item)?;
    }
    Ok(numbers)
}

#[test]
fn a_source_is_read_up_to_a_limit(rt: HostRuntime) -> Result<(), Fail> {
    let alloc = rt.alloc();
    for (limit, want) in [
        (0, b"".as_slice()),
        (3, b"abc".as_slice()),
        (5, b"abcde".as_slice()),
        (9, b"abcde".as_slice()),
    ] {
        let mut source = MemSource::new(b"abcde".to_vec(alloc)?, NumberList::new(alloc));
        let text = read_up_to(alloc, &mut source, limit)?;
        assert_eq!(rt; text.as_slice(), want, "up to {limit}");
    }
    Ok(())
}

#[test]
fn a_listed_read_fails(rt: HostRuntime) -> Result<(), Fail> {
    let alloc = rt.alloc();
    for fails in [0, 1] {
        let mut source = MemSource::new(b"abc".to_vec(alloc)?, numbers(alloc, &[fails])?);
        let text = read_up_to(alloc, &mut source, 9);
        assert!(rt; matches!(text, Err(ReadFault::Source)), "read {fails}");
    }
    let mut source = MemSource::new(b"abc".to_vec(alloc)?, numbers(alloc, &[2])?);
    let text = read_up_to(alloc, &mut source, 9)?;
    assert_eq!(rt; text.as_slice(), b"abc".as_slice());
    Ok(())
}

#[test]
fn a_sink_takes_all_but_at_a_listed_put(rt: HostRuntime) -> Result<(), Fail> {
    let alloc = rt.alloc();
    let mut sink = MemSink::new(alloc, numbers(alloc, &[1])?);
    put_all(&mut sink, b"abc")?;
    assert!(rt; put_all(&mut sink, b"d").is_err());
    put_all(&mut sink, b"ef")?;
    put_all(&mut sink, b"")?;
    assert_eq!(rt; sink.taken(), b"abcef".as_slice());
    Ok(())
}

// A writer that takes two bytes at a time, and none once it has six.
#[derive(Drop)]
struct Narrow {
    taken: u8,
}

impl io::Write for Narrow {
    fn write(&mut self, bytes: &[u8]) -> io::Result<usize> {
        if self.taken >= 6 {
            return Ok(0);
        }
        let count = bytes.len().min(2);
        self.taken += 2;
        Ok(count)
    }

    fn flush(&mut self) -> io::Result<()> {
        Ok(())
    }
}

#[test]
fn adapters_pass_bytes_on(rt: HostRuntime) -> Result<(), Fail> {
    let alloc = rt.alloc();
    let mut source = ReaderSource::new(b"abc".as_slice());
    let text = read_up_to(alloc, &mut source, 9)?;
    assert_eq!(rt; text.as_slice(), b"abc".as_slice());
    let mut sink = WriterSink::new(Vec::<u8>::new(alloc));
    put_all(&mut sink, b"abc")?;
    let mut narrow = WriterSink::new(Narrow { taken: 0 });
    put_all(&mut narrow, b"abcd")?;
    assert!(rt; put_all(&mut narrow, b"efgh").is_err());
    Ok(())
}

// A reader and a writer of one byte a call, each first call of two interrupted by a signal.
#[derive(Drop)]
struct Signalled {
    calls: u8,
}

impl Signalled {
    fn call(&mut self) -> io::Result<usize> {
        self.calls = self.calls.wrapping_add(1);
        if self.calls % 2 == 1 {
            return Err(io::Error::from(io::ErrorKind::Interrupted));
        }
        Ok(1)
    }
}

impl io::Read for Signalled {
    fn read(&mut self, into: &mut [u8]) -> io::Result<usize> {
        let count = self.call()?.min(into.len());
        into[..count].fill(b'a');
        Ok(count)
    }
}

impl io::Write for Signalled {
    fn write(&mut self, bytes: &[u8]) -> io::Result<usize> {
        Ok(self.call()?.min(bytes.len()))
    }

    fn flush(&mut self) -> io::Result<()> {
        Ok(())
    }
}

#[test]
fn what_a_signal_interrupts_is_made_again(rt: HostRuntime) -> Result<(), Fail> {
    let alloc = rt.alloc();
    let mut source = ReaderSource::new(Signalled { calls: 0 });
    let text = read_up_to(alloc, &mut source, 3)?;
    assert_eq!(rt; text.as_slice(), b"aaa".as_slice());
    let mut sink = WriterSink::new(Signalled { calls: 0 });
    put_all(&mut sink, b"abc")?;
    Ok(())
}

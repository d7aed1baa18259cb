// Polls of one client's command.
ghost use Rattle.merge_client.specs.Merging.{IsSound as IsSoundCompactor};
ghost use Rattle.read_client.specs.Reading.{IsSound as IsSoundReader};
ghost use Rattle.write_client.specs.Writing.{IsSound as IsSoundWriter};

use merge_client::{Compactor, MergeAnswer};
use read_client::{Poll, ReadAnswer, Reader};
use std::alloc::{AllocError, Global};
use store_core::DirectPort;
use test_stores::UntoldStore;
use write_client::{WriteAnswer, Writer};

/// Polls the writer's open command as often as that, or until it ends or a call fails. It gives what the last poll came to; none
/// where there was none.
pub fn write_on(
    alloc: Global,
    writer: &mut Writer,
    store: &mut UntoldStore,
    client: u64,
    polls: u64,
) -> Result<Option<Poll<WriteAnswer>>, AllocError>
    requires { IsSoundWriter writer.old }
    ensures { IsSoundWriter writer.new }
{
    let mut last = None;
    for _ in 0..polls {
        if !writer.busy() {
            break;
        }
        let poll = writer.poll(alloc, &mut DirectPort::new(store, client))?;
        let over = !matches!(&poll, Poll::More);
        last = Some(poll);
        if over {
            break;
        }
    }
    Ok(last)
}

/// The same of a reader.
pub fn read_on(
    alloc: Global,
    reader: &mut Reader,
    store: &mut UntoldStore,
    client: u64,
    polls: u64,
) -> Result<Option<Poll<ReadAnswer>>, AllocError>
    requires { IsSoundReader reader.old }
    ensures { IsSoundReader reader.new }
{
    let mut last = None;
    for _ in 0..polls {
        if !reader.busy() {
            break;
        }
        let poll = reader.poll(alloc, &mut DirectPort::new(store, client))?;
        let over = !matches!(&poll, Poll::More);
        last = Some(poll);
        if over {
            break;
        }
    }
    Ok(last)
}

/// The same of a compactor.
pub fn merge_on(
    alloc: Global,
    compactor: &mut Compactor,
    store: &mut UntoldStore,
    client: u64,
    polls: u64,
) -> Result<Option<Poll<MergeAnswer>>, AllocError>
    requires { IsSoundCompactor compactor.old }
    ensures { IsSoundCompactor compactor.new }
{
    let mut last = None;
    for _ in 0..polls {
        if !compactor.busy() {
            break;
        }
        let poll = compactor.poll(alloc, &mut DirectPort::new(store, client))?;
        let over = !matches!(&poll, Poll::More);
        last = Some(poll);
        if over {
            break;
        }
    }
    Ok(last)
}

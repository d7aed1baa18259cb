// The call that `persist_file` makes.
ghost use Rattle.std.specs.Prelude.{◌≡◌, ◌≤◌, ◌++◌, [], true, false, IfOk, IfErr, map, string_bytes};
ghost use Rattle.causes.specs.Causes.{Rose};
ghost use Rattle.store_file.specs.FileStores.{disk_faults, disk_of, file_faults, history_of, is_shut, opened_disk, store_now, told};
ghost use Rattle.store_file.specs.SinceOpening.{StandsForFirst};
ghost use Rattle.journal_core.specs.Crashes.{LeavesWhereTold};
ghost use Rattle.store_file.specs.Causes.{IsCauseOf};
ghost use Rattle.persist_app.specs.Endings.{EndsWith};
ghost use Rattle.persist_app.specs.TopEnds.{EndsTop};
ghost use Rattle.persist_app.specs.DiskLines.{IsDiskStatus, Refuses, damaged_at_text};
ghost use Rattle.persist_app.specs.DiskLefts.{BeginsWhereTold, IsLeft, KeepsAcceptedFrom, IsUnread, OnStore, StandsWhereTold, opened};

use crate::clocks::Clock;
use crate::disk_ends::DiskEnded;
use crate::disk_lefts::DiskLeft;
use crate::disk_statuses::DiskStatus;
use crate::ends::Ended;
use crate::statuses::Status;
use crate::watching::over_file;
use crew::Gate;
use feed_text::{Sink, Source, put_all};
use itoa::Buffer;
use journal_core::Disk;
use std::alloc::{AllocError, Global};
use std::sync::Wait;
use std::thread::Threads;
use store_file::{FileStore, OpenFail, OpenFault};

// Writes the last line. A put that fails makes the status that of the output.
fn put_line<Si: Sink>(out: &mut Si, line: &[u8], status: u8) -> u8
    ensures { EndsWith result status line.now (Si.taken out.old) (Si.taken out.new) (Si.faults out.old) (Si.faults out.new) }
{
    match put_all(out, line) {
        Ok(()) => status,
        Err(_) => Status::Output as u8,
    }
}

fn damaged_line(alloc: Global, at: u64) -> Result<Vec<u8>, AllocError>
    ensures { IfOk result (λ line. line.items ≡ damaged_at_text at) }
{
    let mut buffer = Buffer::new();
    let mut line = Vec::new(alloc);
    line.extend_from_slice(b"damaged at ")?;
    line.extend_from_slice(buffer.format(at).as_bytes())?;
    line.push(b'\n')?;
    Ok(line)
}

// Writes the last line of a disk that isn't opened, and gives the status.
fn refuse<Si: Sink>(alloc: Global, out: &mut Si, why: &OpenFault) -> u8
    ensures { Refuses why.now result (Si.taken out.old) (Si.taken out.new) (Si.faults out.old) (Si.faults out.new) }
{
    match why {
        OpenFault::NotAStore => put_line(out, b"not a store\n", DiskStatus::NotAStore as u8),
        OpenFault::DiskFault => put_line(out, b"disk failed\n", DiskStatus::DiskFailed as u8),
        OpenFault::Damaged { at } => match damaged_line(alloc, *at) {
            Ok(line) => put_line(out, &line, DiskStatus::Damaged as u8),
            Err(_) => put_line(out, b"memory\n", Status::Memory as u8),
        },
        OpenFault::Memory => put_line(out, b"memory\n", Status::Memory as u8),
    }
}

// The store on a disk, which is made where the disk is empty.
fn store_on<D: Disk>(alloc: Global, disk: D) -> Result<FileStore<D>, OpenFail<D>>
    ensures start { IfOk result (λ store. BeginsWhereTold (D.history disk) (history_of store).start) }
    ensures trail { IfOk result (λ store. (history_of store).trail ≡ []) }
    ensures open { IfOk result (λ store. is_shut store ≡ false) }
    ensures later { IfOk result (λ store. D.faults disk ≤ disk_faults store) }
    ensures fault { IfErr result (λ fail. IsCauseOf (D.history disk) (D.faults disk) (D.faults fail.disk) fail.why) }
{
    let mut disk = disk;
    match disk.len() {
        Ok(0) => FileStore::create(alloc, disk),
        Ok(_) => FileStore::open(alloc, disk),
        Err(_) => Err(OpenFail {
            disk,
            why: OpenFault::DiskFault,
        }),
    }
}

/// Does what the words say, as `persist_top` does, over the store on a disk: an empty disk gets an empty store, and any other is
/// opened. Where that is refused nothing is read, the last line says why, and the disk is given back. See docs/DEFINITIONS.md,
/// "A command over a disk".
pub fn persist_on_disk<
    So: Source,
    Si: Sink,
    D: Disk + Send,
    K: Clock,
    G: Gate + Sync,
    R: Threads + Wait + Sync,
>(
    rt: &R,
    alloc: Global,
    words: &Vec<String>,
    src: &mut So,
    out: &mut Si,
    disk: D,
    clock: &mut K,
    gate: &G,
) -> DiskEnded<D>
    ensures statuses { IsDiskStatus result.status }
    // A disk is left where no store was created or opened, and the last line and the status tell the cause: 13, 14 and 15, or 8 for
    // want of memory, or 5 where the line can't be put. Over a store none of the first three comes.
    ensures left { IsLeft disk result.left result.status (Si.taken out.old) (Si.taken out.new) (Si.faults out.old) (Si.faults out.new) }
    // Then the source is as it was.
    ensures unread { IsUnread result.left src.old src.new }
    // A store began with what the disk's bytes stood for, and an empty disk's with nothing.
    ensures start { OnStore result.left (λ store. BeginsWhereTold (D.history disk) (history_of store).start) }
    // All that `persist_top` says holds from that start on, with no call before it.
    ensures ends { OnStore result.left (λ store. EndsTop (map string_bytes words.now.items) result.status (opened store) (told store)
        (D.faults disk) (file_faults store) (So.left src.old) (So.left src.new) (So.reads src.old) (So.reads src.new)
        (So.faults src.old) (So.faults src.new) (Si.taken out.old) (Si.taken out.new) (Si.faults out.old) (Si.faults out.new)) }
    // It is shut only where the disk failed in this call.
    ensures shut { OnStore result.left (λ store. is_shut store ≡ true → Rose (D.faults disk) (disk_faults store)) }
    // 6: the store is shut, and so the disk failed in this call.
    ensures failed { OnStore result.left (λ store. result.status ≡ 6 → is_shut store ≡ true) }
    // Whatever a crash left at any moment since the store was opened, within a store call too, stands for the store after its first
    // calls, with or without the next one.
    ensures any_moment { OnStore result.left (λ store. LeavesWhereTold (StandsForFirst (history_of store)) (opened_disk store) (disk_of store)) }
    // Where the start stood for a list, that store stands for what those calls make accepted.
    ensures accepted { OnStore result.left (λ store. KeepsAcceptedFrom (opened_disk store) (history_of store) (disk_of store)) }
    // Where the disk didn't fail in this call, its bytes stand for the store as it is.
    ensures stands { OnStore result.left (λ store. (Rose (D.faults disk) (disk_faults store) → ⊥)
        → StandsWhereTold (disk_of store) (store_now store)) }
{
    match store_on(alloc, disk) {
        Ok(store) => {
            let Ended { status, store } = over_file(rt, alloc, words, src, out, store, clock, gate);
            DiskEnded {
                status,
                left: DiskLeft::Store(store),
            }
        }
        Err(fail) => {
            let status = refuse(alloc, out, &fail.why);
            DiskEnded {
                status,
                left: DiskLeft::Disk(fail.disk),
            }
        }
    }
}

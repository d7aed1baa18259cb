// A command over a store in a file.
ghost use Rattle.std.specs.Prelude.{◌≡◌, true, false, [], map, string_bytes};
ghost use Rattle.causes.specs.Causes.{Rose};
ghost use Rattle.store_file.specs.FileStores.{told, history_of, is_shut, disk_faults, file_faults};
ghost use Rattle.persist_app.specs.TopEnds.{EndsTop};

use crate::clocks::Clock;
use crate::ends::Ended;
use crate::top::persist_top;
use crate::watched::{Watch, Watched};
use crew::Gate;
use feed_text::{Sink, Source};
use journal_core::Disk;
use std::alloc::Global;
use std::marker::{Brand, PhantomData};
use std::sync::Wait;
use std::thread::Threads;
use store_file::FileStore;

// The one place that says which call does what the words say.
fn watch<
    So: Source,
    Si: Sink,
    D: Disk + Send,
    K: Clock,
    G: Gate + Sync,
    R: Threads + Wait + Sync,
    W: Watch + Send,
>(
    rt: &R,
    alloc: Global,
    words: &Vec<String>,
    src: &mut So,
    out: &mut Si,
    store: FileStore<D>,
    clock: &mut K,
    gate: &G,
    _of: PhantomData<W>,
) -> Ended<FileStore<D>>
    requires open { is_shut store ≡ false }
    requires trail { (history_of store).trail ≡ [] }
    requires count { W.count ≡ disk_faults store }
    ensures ends { EndsTop (map string_bytes words.now.items) result.status (told store) (told result.store)
        (file_faults store) (file_faults result.store) (So.left src.old) (So.left src.new) (So.reads src.old) (So.reads src.new)
        (So.faults src.old) (So.faults src.new) (Si.taken out.old) (Si.taken out.new) (Si.faults out.old) (Si.faults out.new) }
    ensures shut { is_shut result.store ≡ true → Rose W.count (disk_faults result.store) }
    ensures failed { result.status ≡ 6 → is_shut result.store ≡ true }
{
    let of: PhantomData<W> = PhantomData;
    let Ended {
        status,
        store: Watched { store, .. },
    } = persist_top(
        rt,
        alloc,
        words,
        src,
        out,
        Watched { store, of },
        clock,
        gate,
    );
    Ended { status, store }
}

/// Does what the words say over a store in a file.
pub fn over_file<
    So: Source,
    Si: Sink,
    D: Disk + Send,
    K: Clock,
    G: Gate + Sync,
    R: Threads + Wait + Sync,
>(
    rt: &R,
    alloc: Global,
    words: &Vec<String>,
    src: &mut So,
    out: &mut Si,
    store: FileStore<D>,
    clock: &mut K,
    gate: &G,
) -> Ended<FileStore<D>>
    requires open { is_shut store ≡ false }
    requires trail { (history_of store).trail ≡ [] }
    ensures ends { EndsTop (map string_bytes words.now.items) result.status (told store) (told result.store)
        (file_faults store) (file_faults result.store) (So.left src.old) (So.left src.new) (So.reads src.old) (So.reads src.new)
        (So.faults src.old) (So.faults src.new) (Si.taken out.old) (Si.taken out.new) (Si.faults out.old) (Si.faults out.new) }
    ensures shut { is_shut result.store ≡ true → Rose (disk_faults store) (disk_faults result.store) }
    ensures failed { result.status ≡ 6 → is_shut result.store ≡ true }
{
    watch::<So, Si, D, K, G, R, Brand>(rt, alloc, words, src, out, store, clock, gate, PhantomData)
}

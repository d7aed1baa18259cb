// A store with a count of its entries since it was taken in.
ghost use Rattle.std.specs.Prelude.{◌≡◌};
ghost use Rattle.shared_store.specs.Trails.{RoseBy, count_since, extended, failed_in, gained};

use causes::one_more;
use std::alloc::AllocError;
use std::snapshot::Snapshot;
use store_core::{Call, Entry, Reply, Store};
use turnstile::Growing;

/// A store, and how many entries it has since it was taken in. It tells the store as it was then, and the entries since then,
/// where the store tells its history.
#[derive(Drop)]
pub struct CountedStore<S: Store> {
    pub(crate) store: S,
    pub(crate) count: u64,
    pub(crate) opened: Snapshot<S>,
    pub ghost grown: { S.history store ≡ extended (S.history opened.value) (gained (S.history opened.value) (S.history store)) },
    pub ghost failed: { RoseBy (failed_in (gained (S.history opened.value) (S.history store))) (S.faults opened.value) (S.faults store) },
    pub ghost counted: { count ≡ count_since (S.history opened.value) (S.history store) count },
}

impl<S: Store> Growing for CountedStore<S> {
    ghost use Rattle.shared_store.specs.Trails.{since, entry_client};

    type Begin = S;

    type Item = Entry;

    ghost told = { λ c. since c.opened.value (S.history c.opened.value) (S.history c.store) };

    ghost client = { entry_client };

    fn entries(&self) -> u64 {
        self.count
    }
}

impl<S: Store> CountedStore<S> {
    ghost use Rattle.std.specs.Prelude.{◌≤◌, IfOk, OnErr};
    ghost use Rattle.causes.specs.Causes.{Rose};
    ghost use Rattle.store_core.specs.Histories.{Adds, IsReplyTo};

    /// A store with no entries since now.
    pub(crate) fn new(store: S) -> CountedStore<S>
        ensures store { result.store ≡ store }
        ensures opened { result.opened.value ≡ store }
    {
        let opened = Snapshot::of(&store);
        CountedStore {
            store,
            count: 0,
            opened,
        }
    }

    /// The store's reply, which is one more entry. Want of memory adds none.
    pub(crate) fn call(&mut self, client: u64, call: &Call) -> Result<Reply, AllocError>
        ensures entry { IfOk result (λ reply. Adds (S.history self.old.store) (S.history self.new.store) client call.now reply) }
        ensures memory { OnErr result (S.history self.new.store ≡ S.history self.old.store) }
        ensures opened { self.new.opened ≡ self.old.opened }
        ensures shape { IfOk result (λ reply. IsReplyTo call.now reply) }
        ensures cause { IfOk result (λ reply. reply ≡ Reply.Failed → Rose (S.faults self.old.store) (S.faults self.new.store)) }
        ensures later { S.faults self.old.store ≤ S.faults self.new.store }
    {
        let reply = self.store.call(client, call)?;
        self.count = one_more(self.count);
        Ok(reply)
    }

    /// The store alone.
    pub(crate) fn into_store(self) -> S
        ensures { result ≡ self.store }
    {
        let CountedStore {
            store,
            count: _,
            opened: _,
        } = self;
        store
    }
}

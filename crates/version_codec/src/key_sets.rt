// KeySet: the keys that were read so far.
ghost use Rattle.std.specs.Prelude.{◌≡◌, Bool, false, [], ◌∷◌, ◌++◌, not, IfOk, OnOk};
ghost use Rattle.std.specs.List.{list_any};
ghost use Rattle.state_core.specs.Refusals.{same_key};

use std::alloc::{AllocError, Global};
use std::collections::BTreeSet;
use std::marker::Model;
use store_core::PartKey;

/// Keys in the order in which they came, of which one that is there is found quickly.
#[derive(Drop)]
pub(crate) struct KeySet {
    order: Vec<PartKey>,
    sorted: BTreeSet<PartKey>,
}

impl Model for KeySet {
    ghost use Rattle.std.specs.Prelude.{List};
    ghost use Rattle.store_core.specs.declared.part_keys.PartKey.{PartKey};
    ghost use Rattle.version_codec.specs.KeySets.{Sorts};

    ghost Value = { List PartKey };

    ghost view = { λ s. s.order.items };

    ghost invariant = { λ s. Sorts s.sorted s.order.items };
}

impl KeySet {
    /// No keys.
    pub(crate) fn new(alloc: Global) -> KeySet
        ensures { result ≡ [] }
    {
        KeySet {
            order: Vec::new(alloc),
            sorted: BTreeSet::new(alloc),
        }
    }

    /// The keys with one more, and whether it is new among them.
    pub(crate) fn with(self, key: PartKey) -> Result<(KeySet, bool), AllocError>
        ensures { IfOk result (λ x. (x.0 ≡ self ++ key ∷ []) × (x.1 ≡ not (list_any (same_key key) self))) }
    {
        let KeySet {
            mut order,
            mut sorted,
        } = self;
        let is_new = sorted.insert(key)?;
        order.push(key)?;
        Ok((KeySet { order, sorted }, is_new))
    }
}

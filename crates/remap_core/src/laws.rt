// Laws of what a remap shard binds, each the contract of a function that does nothing. See docs/DEFINITIONS.md, "Reclocking".
ghost use Rattle.remap_core.specs.Laws.{EqualCollections, ListenExtends, OneList, PublishedGoesOn, SnapshotStarts};

/// Updates have one list of bindings.
pub fn one_list()
    ensures { OneList }
{}

/// Whatever the times from which two operators know a remap shard, and whatever the frontiers up to which they have
/// read it: their collections have equal sums at each time that both know.
pub fn equal_collections()
    ensures { EqualCollections }
{}

/// Where each row of the snapshot at a time raises a partition, these rows make the bindings up to the frontier from which
/// a listen goes on: one that covers the time, and up to which no change comes after it.
pub fn snapshot_starts()
    ensures { SnapshotStarts }
{}

/// Where each row of a listen's step raises a partition, the bindings with these rows are those up to the step's frontier.
pub fn listen_extends()
    ensures { ListenExtends }
{}

/// Of operators whose readers joined at one time: what one has published up to a frontier, followed by what another
/// publishes from there on, is the other's collection.
pub fn published_goes_on()
    ensures { PublishedGoesOn }
{}

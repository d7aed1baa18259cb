// Stop numbers of workers.
ghost use Rattle.std.specs.Prelude.{◌≡◌, [], ◌∷◌, ◌++◌, OnOk, OnErr};
ghost use Rattle.stops_core.specs.Stops.{stop_of};

use std::alloc::{AllocError, Global};
use std::marker::Model;

/// A worker's stop number: after so many calls of the store it ends.
#[derive(Clone, Copy, Debug)]
pub struct Stop {
    pub worker: u32,
    pub calls: u64,
}

/// Stop numbers, in order.
#[derive(Drop)]
pub struct StopList {
    items: Vec<Stop>,
}

impl Model for StopList {
    ghost use Rattle.std.specs.Prelude.{List};
    ghost use Rattle.stops_core.specs.declared.stops.Stop.{Stop};

    ghost Value = { List Stop };

    ghost view = { λ l. l.items.items };
}

impl StopList {
    /// The empty list, which takes no memory.
    pub fn new(alloc: Global) -> StopList
        ensures { result ≡ [] }
    {
        StopList {
            items: Vec::new(alloc),
        }
    }

    /// One more at the end. Where memory is refused the list is as it was.
    pub fn push(&mut self, item: Stop) -> Result<(), AllocError>
        ensures ok { OnOk result (self.new ≡ self.old ++ item ∷ []) }
        ensures err { OnErr result (self.new ≡ self.old) }
    {
        self.items.push(item)?;
        Ok(())
    }

    /// The stop numbers in order.
    pub fn as_slice(&self) -> &[Stop]
        ensures { result.now ≡ self.now }
    {
        &self.items
    }

    /// The stop number of a worker: the first one that names it.
    pub fn stop_of(&self, worker: u32) -> Option<u64>
        ensures { result ≡ stop_of self.now worker }
    {
        stop_in(&self.items, worker)
    }
}

fn stop_in(stops: &[Stop], worker: u32) -> Option<u64>
    ensures { result ≡ stop_of stops.now worker }
{
    for stop in stops {
        if stop.worker == worker {
            return Some(stop.calls);
        }
    }
    None
}

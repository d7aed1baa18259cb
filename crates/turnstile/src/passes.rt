// What a thread has of a turnstile.
ghost use Rattle.std.specs.Prelude.{◌≡◌};

use crate::histories::Growing;
use crate::rules::Place;

/// The right to take turns at a turnstile, with a number, and with what was seen so far. A pass that is dropped keeps its share of the turnstile,
/// which can't be closed then.
#[derive(Drop)]
pub struct Pass<V: Growing> {
    pub(crate) place: Place<V>,
    pub(crate) number: u64,
    pub(crate) low: u64,
    pub(crate) stock: u64,
    pub(crate) count: u64,
}

impl<V: Growing> Pass<V> {
    ghost use Rattle.turnstile.specs.Passes.{IsCarried, view};

    /// The client number of the pass.
    pub fn number(&self) -> u64
        requires { IsCarried self.now }
        ensures { result ≡ (view self.now).number }
    {
        self.number
    }
}

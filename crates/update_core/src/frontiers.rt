// Times up to which a collection is known, or all times.
ghost use Rattle.std.specs.Prelude.{◌≡◌, None, Some};
ghost use Rattle.std.proofs.Common.{refl};
ghost use Rattle.std.specs.Cmp.{partial_order_from_agreeing_total, partial_equiv_from_equiv};
ghost use Rattle.update_core.specs.Frontiers.{covers, after, is_at, is_from, frontier_cmp, frontier_eq, frontier_total, frontier_equiv, frontier_ties};

use std::cmp::Ordering;
use std::marker::Model;

/// A time, or Closed, which is after all times. See docs/DEFINITIONS.md, "Frontiers".
#[derive(Clone, Copy, Debug)]
pub struct Frontier(Option<u64>);

impl Model for Frontier {
    ghost use Rattle.std.specs.Prelude.{ℕ, Option};

    ghost Value = { Option ℕ };

    ghost view = { λ f. f.0 };

    ghost inverse = { λ t. record { 0 = t } };
}

impl PartialEq for Frontier {
    ghost eq = { frontier_eq };

    ghost laws = { partial_equiv_from_equiv frontier_equiv };

    fn eq(&self, other: &Frontier) -> bool {
        match (self.0, other.0) {
            (None, None) => true,
            (Some(a), Some(b)) => a == b,
            _ => false,
        }
    }
}

impl Eq for Frontier {
    ghost laws = { frontier_equiv };
}

// By time, Closed last.
impl Ord for Frontier {
    ghost cmp = { frontier_cmp };

    ghost total = { frontier_total };

    ghost matches_partial_cmp = { λ x y. refl };

    ghost matches_eq = { frontier_ties };

    fn cmp(&self, other: &Frontier) -> Ordering {
        match (self.0, other.0) {
            (None, None) => Ordering::Equal,
            (None, Some(_)) => Ordering::Greater,
            (Some(_), None) => Ordering::Less,
            (Some(a), Some(b)) => a.cmp(&b),
        }
    }
}

impl PartialOrd for Frontier {
    ghost partial_cmp = { λ x y. Some (frontier_cmp x y) };

    ghost laws = { partial_order_from_agreeing_total frontier_cmp frontier_total (λ x y. refl) frontier_ties };

    fn partial_cmp(&self, other: &Frontier) -> Option<Ordering> {
        Some(self.cmp(other))
    }
}

impl Frontier {
    /// The frontier at a time.
    pub fn at(t: u64) -> Frontier
        ensures { result ≡ Some t }
    {
        Frontier(Some(t))
    }

    /// The frontier after all times.
    pub fn closed() -> Frontier
        ensures { result ≡ None }
    {
        Frontier(None)
    }

    /// Whether the time is before this frontier. Closed covers each time.
    pub fn covers(&self, t: u64) -> bool
        ensures { result ≡ covers self.now t }
    {
        match self.0 {
            Some(at) => t < at,
            None => true,
        }
    }

    /// Whether the time is from this frontier on. None is from Closed on.
    pub fn reaches(&self, t: u64) -> bool
        ensures { result ≡ is_from self.now t }
    {
        match self.0 {
            Some(at) => at <= t,
            None => false,
        }
    }

    /// Whether this frontier is at the time.
    pub fn is_at(&self, t: u64) -> bool
        ensures { result ≡ is_at self.now t }
    {
        match self.0 {
            Some(at) => at == t,
            None => false,
        }
    }

    /// The time, or None where it is Closed.
    pub fn time(&self) -> Option<u64>
        ensures { result ≡ self.now }
    {
        self.0
    }

    /// The frontier that covers this time and none after it: Closed for 2^64 - 1.
    pub fn after(t: u64) -> Frontier
        ensures { result ≡ after t }
    {
        if t < u64::MAX {
            Frontier(Some(t + 1))
        } else {
            Frontier(None)
        }
    }
}

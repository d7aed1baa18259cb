// A list of marks that only grows.
ghost use Rattle.std.specs.Prelude.{◌≡◌, ◌++◌, List};
ghost use Rattle.turnstile.specs.Plays.{EachBy};
ghost use Rattle.turnstile_tests.specs.declared.marks.Mark.{Mark};

use crate::marks::Mark;
use turnstile::Growing;

/// A number to begin with, and marks.
#[derive(Drop)]
pub struct Tally {
    pub from: u64,
    pub marks: Vec<Mark>,
}

impl Growing for Tally {
    ghost use Rattle.turnstile_tests.specs.Tallies.{mark_client, tally_told};

    type Begin = u64;

    type Item = Mark;

    ghost told = { tally_told };

    ghost client = { mark_client };

    fn entries(&self) -> u64 {
        self.marks.len() as u64
    }
}

impl Tally {
    ghost use Rattle.turnstile_tests.specs.Tallies.{mark_client};

    /// Adds a mark of this client, or none where memory is refused.
    pub fn add(&mut self, client: u64, amount: u64)
        ensures from { self.new.from ≡ self.old.from }
        ensures marks { (es : List Mark) × (self.new.marks.items ≡ self.old.marks.items ++ es) × EachBy mark_client client es }
    {
        let _ = self.marks.push(Mark { client, amount });
    }
}

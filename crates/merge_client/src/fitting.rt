// Whether the parts that a compactor gets fit their batches.
ghost use Rattle.std.specs.Prelude.{◌≡◌};
ghost use Rattle.read_machine.specs.Readings as readings;
ghost use Rattle.merge_client.specs.Finding.{finding};
ghost use Rattle.merge_client.specs.Fitting.{bound_at, misfit_by};
ghost use Rattle.merge_client.specs.Merging.{left_fit, noted, told_fit};

use crate::compactors::Compactor;
use crate::founds::Found;
use crate::pair_bounds::{PairBound, bound_in};
use load_core::{Damage, Poll};
use read_machine::Stage;
use store_core::PartKey;

impl Compactor {
    // What the pair that is due says, while its parts are got.
    pub(crate) fn bound(&self) -> Option<PairBound>
        ensures { result ≡ bound_at self.now.reading.course self.now.reading.course.stage }
    {
        match self.reading.course.stage {
            Stage::Get => match self.reading.course.loader.state() {
                Some(state) => bound_in(state),
                None => None,
            },
            _ => None,
        }
    }

    // The rows of the left batch's parts are counted.
    pub(crate) fn note(&mut self, bound: Option<PairBound>)
        requires { bound ≡ bound_at self.old.reading.course self.old.reading.course.stage }
        ensures { self.new ≡ noted self.old }
    {
        if let Some(bound) = bound {
            self.left_rows = bound.noted_rows(&self.reading.course.getting, self.left_rows);
        }
    }

    // The key of the part at this place, before which so many rows were got, where it is got now and doesn't fit its batch.
    pub(crate) fn misfit(
        &self,
        bound: Option<PairBound>,
        place: usize,
        count: usize,
    ) -> Option<PartKey>
        ensures { result ≡ misfit_by bound self.now.left_rows place count self.now.reading.course.getting }
    {
        match bound {
            Some(bound) => bound.misfit(self.left_rows, place, count, &self.reading.course.getting),
            None => None,
        }
    }

    // What the reading comes to where a part doesn't fit: the command ends.
    pub(crate) fn fit(&mut self, misfit: Option<PartKey>, read: Poll<Found>) -> Poll<Found>
        requires { readings.IsSound finding self.old.reading }
        ensures poll { result ≡ told_fit misfit read }
        ensures ends { self.new ≡ record self.old { reading = left_fit misfit self.old.reading } }
        ensures sound { readings.IsSound finding self.new.reading }
    {
        match misfit {
            Some(key) => {
                self.reading.asked = None;
                Poll::Damaged(Damage::Weight { key })
            }
            None => read,
        }
    }
}

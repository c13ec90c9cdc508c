// The end of a running bench, and what it came to.
ghost use Rattle.std.specs.Prelude.{◌≡◌};
ghost use Rattle.bench.specs.Benches.{state_of};
ghost use Rattle.bench.specs.Ends.{totals_of};

use super::Running;
use crate::closed::{Closed, Totals};
use racks::Rack;

impl<R: Rack> Running<R> {
    // Every accepted run is committed, stands, or was undone.
    pub fn totals(&self) -> Totals
        ensures { result ≡ totals_of (state_of self.now) }
    {
        Totals {
            committed: self.committed,
            standing: self.runs - self.committed - self.undone,
            undone: self.undone,
        }
    }

    // Ends the bench, and hands its rack back.
    pub fn close(self) -> (Closed, R)
        ensures totals_are_the_last_ones { result.0.totals ≡ totals_of (state_of self) }
        ensures rack_is_handed_back { result.1 ≡ self.rack }
    {
        let totals = self.totals();
        // `..` would let go of the other fields, and a bench whose rack is no `Drop` has to be taken apart whole
        let Running {
            rack,
            end: _,
            table: _,
            transit: _,
            offers: _,
            runs: _,
            committed: _,
            undone: _,
            last: _,
        } = self;
        (Closed { totals }, rack)
    }
}

// How a running bench begins.
ghost use Rattle.std.specs.Prelude.{◌≡◌};
ghost use Rattle.model.specs.State.{started};
ghost use Rattle.bench.specs.Benches.{bench_of};

use super::Running;
use queues::{Table, Transit};
use racks::Rack;

impl<R: Rack> Running<R> {
    // A bench on which nothing has happened yet.
    pub(crate) fn fresh(rack: R, end: u32) -> Running<R>
        ensures { bench_of result ≡ record { setting = record { rules = R.Rack.rules; end = end }; state = started (R.Rack.rows rack) } }
    {
        Running {
            rack,
            end,
            table: Table::empty(),
            transit: Transit::empty(),
            offers: 0,
            runs: 0,
            committed: 0,
            undone: 0,
            last: None,
        }
    }
}

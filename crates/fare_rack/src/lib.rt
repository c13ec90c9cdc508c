// The rack of the programs: a fare computer at address 0, a reader at 1 and a ticker at 2.
#![tactic(auto)]

ghost use Rattle.std.specs.Prelude.{◌≡◌, length};
ghost use Rattle.fare_rack.specs.FareRacks.{fare_rules, fare_rows, rows_of_zeros};

use boards::{FareComputer, Reader, Ticker};
use racks::{One, Pair, Rack};
use savers::{Checkpoints, FullCopies};

// The reader is under checkpoints, the others under full copies.
pub type FareRack = Pair<
    One<FullCopies<FareComputer>>,
    Pair<One<Checkpoints<Reader>>, One<FullCopies<Ticker>>>,
>;

// A rack whose boards have four zeros each.
pub fn fare_rack() -> FareRack
    ensures { fare_rows result ≡ rows_of_zeros }
{
    Pair {
        left: One {
            saver: FullCopies::new(FareComputer::new()),
        },
        right: Pair {
            left: One {
                saver: Checkpoints::new(Reader::new()),
            },
            right: One {
                saver: FullCopies::new(Ticker::new()),
            },
        },
    }
}

// How many boards the rack has on the bus.
pub fn board_count() -> u8
    ensures { result ≡ length fare_rules }
{
    FareRack::boards()
}

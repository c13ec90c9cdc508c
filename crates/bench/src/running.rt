// A running bench.
ghost use Rattle.std.specs.Prelude.{◌≡◌, ℕ, ◌+◌, ◌*◌, ◌≤◌, length};
ghost use Rattle.model.specs.State.{issued};
ghost use Rattle.queues.specs.Entries.{board_in, boards_in};
ghost use Rattle.bench.specs.Counts.{all_standing};
ghost use Rattle.bench.specs.declared.running.TheConstants.{MOST_RUNS};

use bus::Message;
use queues::{Table, Transit};
use racks::Rack;

mod beginning;
mod closing;
mod committing;
mod delivering;
mod looking;
mod offering;
mod performing;
mod reacting;

// How many places transit has.
const TRANSIT_PLACES: usize = 128;

// How many runs a bench accepts.
const MOST_RUNS: u32 = 1_000_000_000;

// How many boards a bus has at most.
const MOST_BOARDS: usize = 8;

// Each call tells for itself that it keeps the setting: three meet their rule under a premise, and keep the setting without it.
pub struct Running<R: Rack> {
    rack: R,
    end: u32,
    table: Table,
    transit: Transit,
    // how many offers were admitted and runs accepted, lines committed and events undone
    offers: u32,
    runs: u32,
    committed: u32,
    undone: u32,
    // the last committed line
    last: Option<Message>,
    ghost eight: { length table.entries ≡ 8 },
    ghost bounded: { runs ≤ MOST_RUNS },
    ghost counted: { undone + committed + all_standing (boards_in table) ≡ runs },
    ghost numbered: { ((k : ℕ) → issued (board_in table k) ≤ 2 * runs) },
}

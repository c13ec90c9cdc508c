// A run on the bench, and what it came to.
ghost use Rattle.std.specs.Prelude.{◌≡◌, length, take, IfOk};
ghost use Rattle.playing.specs.Tells.{Tells};

use bench::{Driven, Setup, Totals, drive};
use bus::{BLANK, Message};
use fare_rack::fare_rack;
use model::{Call, Outcome};
use std::alloc::{AllocError, Global};

// An outcome for each call, the committed lines, and the totals.
#[derive(Drop)]
pub(crate) struct Run {
    pub(crate) outcomes: Vec<Outcome>,
    pub(crate) log: Vec<Message>,
    pub(crate) totals: Totals,
}

// How many lines a run wrote to the front of its log, and its totals.
#[derive(Clone, Copy)]
struct Written {
    lines: usize,
    totals: Totals,
}

// Drives a new bench by the calls, and ends it. There is memory for an outcome and a line of each call.
fn drive_new_bench(
    end: u32,
    calls: &[Call],
    outcomes: &mut [Outcome],
    log: &mut [Message],
) -> Written
    requires outcomes_fit { length outcomes.old ≡ length calls.now }
    requires lines_fit { length log.old ≡ length calls.now }
    ensures { Tells end calls.now outcomes.new (take result.lines log.new) result.totals }
{
    let setup = Setup::new(fare_rack(), end);
    let Driven {
        bench,
        played: _,
        lines,
    } = drive(setup, calls, outcomes, log);
    let (closed, _) = bench.close();
    Written {
        lines,
        totals: closed.totals(),
    }
}

// Runs the calls on a new bench, up to this end time.
pub(crate) fn run_calls(heap: Global, end: u32, calls: &[Call]) -> Result<Run, AllocError>
    ensures { IfOk result (λ run. Tells end calls.now run.outcomes.items run.log.items run.totals) }
{
    let mut outcomes = vec![in heap; Outcome::Ran(0); calls.len()]?;
    let mut log = vec![in heap; BLANK; calls.len()]?;
    let written = drive_new_bench(end, calls, &mut outcomes, &mut log);
    log.truncate(written.lines);
    Ok(Run {
        outcomes,
        log,
        totals: written.totals,
    })
}

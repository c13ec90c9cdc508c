// A whole run: calls one after the other on the bench that a set-up starts.
ghost use Rattle.bench.specs.Benches.{bench_of};
ghost use Rattle.bench.specs.Setups.{start_of};
ghost use Rattle.bench.specs.Drives.{Drives, calls_with_memory};

use crate::running::Running;
use crate::setup::Setup;
use bus::Message;
use model::{Call, Outcome};
use racks::Rack;

// The bench after the calls, how many were played, and how many lines they committed: what was written of the caller's
// memory, so that a run allocates nothing.
pub struct Driven<R: Rack> {
    pub bench: Running<R>,
    pub played: usize,
    pub lines: usize,
}

// Plays the calls while there is memory for an outcome and a line of each, and writes their outcomes and lines in order.
pub fn drive<R: Rack>(
    setup: Setup<R>,
    calls: &[Call],
    outcomes: &mut [Outcome],
    log: &mut [Message],
) -> Driven<R>
    ensures outcomes_and_lines_are_the_models_and_lawful { let played = calls_with_memory calls.now outcomes.old log.old in
        Drives (start_of setup) played (bench_of result.bench) outcomes.old outcomes.new log.old log.new result.played result.lines }
{
    let played = &calls[..calls.len().min(outcomes.len()).min(log.len())];
    let mut bench = setup.start();
    let mut lines = 0;
    // outcomes by index: of what is written behind `zip` over `iter_mut` a proof knows nothing
    for (i, call) in played.iter().enumerate() {
        let outcome = bench.perform(call, &mut log[lines..]);
        lines += outcome.lines();
        outcomes[i] = outcome;
    }
    Driven {
        bench,
        played: played.len(),
        lines,
    }
}

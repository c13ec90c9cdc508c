// The one-by-one machine's run over the rack of the programs.
ghost use Rattle.std.specs.Prelude.{◌≡◌, length, IfOk};
ghost use Rattle.oracle.specs.Machines.{machine_on};

use bus::{BLANK, Message, ZEROS};
use fare_rack::fare_rack;
use sequential::run;
use std::alloc::{AllocError, Global};

// The most lines that a run writes.
const MOST_LINES: usize = 65_536;

// What a run came to: its lines, and how many messages were still pending.
#[derive(Drop)]
pub(crate) struct Ran {
    pub(crate) log: Vec<Message>,
    pub(crate) pending: usize,
}

// Takes the stimuli, and what comes of them, one by one, until nothing is pending or the log is full.
// A line takes one message and sends at most two, so that the stimuli and one place for each line are room enough.
pub(crate) fn run_on(heap: Global, end: u32, stimuli: Vec<Message>) -> Result<Ran, AllocError>
    ensures { IfOk result (λ ran. (ran.log.items ≡ (machine_on end (stimuli.items)).log) × (ran.pending ≡ length (machine_on end (stimuli.items)).pending)) }
{
    let mut log = vec![in heap; BLANK; MOST_LINES]?;
    let count = stimuli.len();
    let mut pending = stimuli;
    pending.extend_from_slice(&log)?;
    let mut rack = fare_rack();
    let outcome = run(&mut rack, end, &[ZEROS; 8], &mut pending, count, &mut log);
    log.truncate(outcome.steps);
    Ok(Ran {
        log,
        pending: outcome.pending,
    })
}

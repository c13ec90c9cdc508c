// The machine's run over a rack and lent memory.
ghost use Rattle.std.specs.Prelude.{◌≡◌, ℕ, ◌<◌, true, length, take, is_ok, Err};
ghost use Rattle.rows.specs.Rows.{in_front};
ghost use Rattle.sequential.specs.Laws.{LawfulLog};
ghost use Rattle.racks.specs.Starts.{with_words};
ghost use Rattle.sequential.specs.Runs.{setting_of, starts_of, ran, pending_memory, most_lines, next_in};

use crate::advance::advance;
use crate::outcome::Outcome;
use crate::pending::{append, discard, next};
use bus::{Message, Words};
use racks::Rack;

// The most lines that one run writes. A line sends at most two messages, so that all numbers fit 32 bits.
const MOST_LINES: usize = 1_000_000_000;

// Begins the boards of a rack with their start words, and takes pending messages one by one until the run has to end:
// nothing is pending, the log is full, or no place is free among the pending ones, where a step takes one and may add two.
// The first `count` messages of `pending` are the stimuli. Afterwards the pending ones lie in front there, and behind them what steps left.
pub fn run<R: Rack>(
    rack: &mut R,
    end: u32,
    starts: &[Words; 8],
    pending: &mut [Message],
    count: usize,
    log: &mut [Message],
) -> Outcome
    ensures log_holds_the_lines { let machine = ran R.Rack.rules end starts.now (take count pending.old) result.steps in
        log.new ≡ in_front machine.log log.old }
    ensures each_step_wrote_a_line { let machine = ran R.Rack.rules end starts.now (take count pending.old) result.steps in
        result.steps ≡ length machine.log }
    ensures pending_lies_in_front { let machine = ran R.Rack.rules end starts.now (take count pending.old) result.steps in
        take result.pending pending.new ≡ machine.pending }
    ensures pending_is_put_in_front { pending.new ≡ pending_memory R.Rack.rules end starts.now pending.old count result.steps }
    ensures pending_is_counted { let machine = ran R.Rack.rules end starts.now (take count pending.old) result.steps in
        result.pending ≡ length machine.pending }
    ensures savers_hold_the_words { let machine = ran R.Rack.rules end starts.now (take count pending.old) result.steps in
        R.Rack.rows rack.new ≡ with_words machine.words (R.Rack.rows rack.old) }
    ensures run_had_to_end { let machine = ran R.Rack.rules end starts.now (take count pending.old) result.steps in
        next_in (length pending.old) (most_lines (length log.old)) machine ≡ Err result.ended }
    ensures run_could_go_on_before { let machine = ran R.Rack.rules end starts.now (take count pending.old) in
        ((n : ℕ) → n < result.steps → is_ok (next_in (length pending.old) (most_lines (length log.old)) (machine n)) ≡ true) }
    ensures log_is_lawful { LawfulLog (setting_of R.Rack.rules end) (starts_of R.Rack.rules end starts.now) (take count pending.old) (take result.steps log.new) }
{
    rack.begin_all(starts);
    let lines = log.len().min(MOST_LINES);
    let mut sent = [0; 8];
    let mut held = rows::row(pending, count).len();
    let mut steps = 0;
    // no `for` over the log: behind its last place it would have to ask `next` once more why the run ends
    loop {
        match next(pending, held, steps, lines) {
            Err(ended) => return Outcome {
                ended,
                steps,
                pending: held,
            },
            Ok(message) => {
                log[steps] = message;
                let left = discard(pending, held, &message);
                let batch = advance(rack, end, &mut sent, &message);
                held = append(pending, left, &batch);
                steps += 1;
            }
        }
    }
}

// A schedule file played on a bench of a fare computer, a reader and a ticker: the text that is printed of it.
#![tactic(auto)]

ghost use Rattle.std.specs.Prelude.{◌≡◌, ◌++◌, map, IfOk, string_bytes, OnOk};
ghost use Rattle.playing.specs.Asked.{asked};
ghost use Rattle.playing.specs.Runs.{run_text, play_text, LinesAreTheSequentialLog};

use asking::bench_calls;
use running::run_calls;
use schedule::{ReadError, Schedule, read};
use std::alloc::{AllocError, Global};
use telling::add_run;

mod asking;
mod running;
mod telling;
#[cfg(test)]
mod tests;

// Adds what is told of the run of a schedule.
fn add_schedule(heap: Global, text: &mut String, schedule: &Schedule) -> Result<(), AllocError>
    ensures { OnOk result (string_bytes text.new ≡ string_bytes text.old ++ run_text schedule.now.end (map asked schedule.now.calls.items)) }
{
    let calls = bench_calls(heap, &schedule.calls)?;
    let run = run_calls(heap, schedule.end, &calls)?;
    add_run(text, &run)
}

// The whole text that is printed of a file. For a sound one, the lines that it tells are those of the sequential machine.
#[tactic(auto, using(crate::proofs::FareRuns::lawful_runs))]
pub fn play(heap: Global, bytes: &[u8]) -> Result<String, AllocError>
    ensures tells_the_run_or_the_fault { IfOk result (λ text. string_bytes text ≡ play_text bytes.now) }
    ensures lines_are_the_sequential_log { LinesAreTheSequentialLog bytes.now }
{
    let mut text = String::new(heap);
    // the arms are those of `list` and `reference`: one function for all would take the first arm as a closure over the text
    match read(heap, bytes) {
        Ok(schedule) => add_schedule(heap, &mut text, &schedule)?,
        Err(ReadError::Faulty(fault)) => writeln!(text, "{fault}")?,
        Err(ReadError::NoMemory(error)) => return Err(error),
    }
    Ok(text)
}

// What is printed of a run: the refused offers, the lines of the log, and how it ended.
ghost use Rattle.std.specs.Prelude.{◌≡◌, ◌≤◌, ◌++◌, length, string_bytes, OnOk};
ghost use Rattle.schedule.specs.Layout.{most_bytes};
ghost use Rattle.oracle.specs.Texts.{refusals_from, last_line, run_text};

use crate::offers::{refusal_of, stimuli_of};
use crate::runs::run_on;
use report::add_lines;
use schedule::{Call, Schedule};
use std::alloc::{AllocError, Global};

// A line for each refused offer: its place among the calls, and the refusal's number.
fn add_refusals(text: &mut String, end: u32, calls: &[Call]) -> Result<(), AllocError>
    ensures { OnOk result (string_bytes text.new ≡ string_bytes text.old ++ refusals_from end 0 calls.now) }
{
    for (index, call) in calls.iter().enumerate() {
        if let Some(refusal) = refusal_of(end, call) {
            let number = u8::from(refusal);
            writeln!(text, "R {index} {number}")?;
        }
    }
    Ok(())
}

// The last line: whether the run came to its end, where nothing is pending, and how many lines it wrote.
fn add_last_line(text: &mut String, lines: usize, pending: usize) -> Result<(), AllocError>
    ensures { OnOk result (string_bytes text.new ≡ string_bytes text.old ++ last_line lines pending) }
{
    if pending == 0 {
        writeln!(text, "E {lines}")
    } else {
        writeln!(text, "S {lines}")
    }
}

// All that is printed of a sound schedule.
pub(crate) fn add_run(
    heap: Global,
    text: &mut String,
    schedule: &Schedule,
) -> Result<(), AllocError>
    requires { length schedule.now.calls.items ≤ most_bytes }
    ensures { OnOk result (string_bytes text.new ≡ string_bytes text.old ++ run_text schedule.now.end schedule.now.calls.items) }
{
    add_refusals(text, schedule.end, &schedule.calls)?;
    let stimuli = stimuli_of(heap, schedule.end, &schedule.calls)?;
    let ran = run_on(heap, schedule.end, stimuli)?;
    add_lines(text, &ran.log)?;
    add_last_line(text, ran.log.len(), ran.pending)
}

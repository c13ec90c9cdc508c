// What is printed of the outcomes of calls, and of the lines that they wrote.
ghost use Rattle.std.specs.Prelude.{◌≡◌, ◌++◌, string_bytes, OnOk};
ghost use Rattle.playing.specs.Texts.{totals_line};
ghost use Rattle.playing.specs.Outcomes.{outcome_text, outcomes_text};

use crate::running::Run;
use bench::Totals;
use bus::Message;
use model::Outcome;
use report::{add_lines, end_with, end_with_fields};
use std::alloc::AllocError;

// Adds what is told of the call with this index, which wrote these lines.
pub(crate) fn add_outcome(
    text: &mut String,
    index: usize,
    outcome: &Outcome,
    lines: &[Message],
) -> Result<(), AllocError>
    ensures { OnOk result (string_bytes text.new ≡ string_bytes text.old ++ outcome_text index outcome.now lines.now) }
{
    match *outcome {
        Outcome::Offered(_) | Outcome::Delivered(0) | Outcome::Ran(_) => Ok(()),
        Outcome::Delivered(undone) => {
            // `From` does not go from usize to u64
            text.push_str("U ")?;
            end_with(text, &[undone as u64])
        }
        Outcome::Looked(Some(message)) => {
            text.push_str("G ")?;
            end_with_fields(text, &message)
        }
        Outcome::Looked(None) => text.push_str("G -\n"),
        Outcome::Committed(_) => add_lines(text, lines),
        Outcome::Refused(refusal) => {
            text.push_str("R ")?;
            end_with(text, &[index as u64, u64::from(u8::from(refusal))])
        }
    }
}

// Adds what is told of calls in their order; their lines stand one behind the other in the log.
pub(crate) fn add_outcomes(
    text: &mut String,
    outcomes: &[Outcome],
    log: &[Message],
) -> Result<(), AllocError>
    ensures { OnOk result (string_bytes text.new ≡ string_bytes text.old ++ outcomes_text 0 outcomes.now log.now) }
{
    let mut rest = log;
    for (index, outcome) in outcomes.iter().enumerate() {
        let (lines, later) = rest.split_at(outcome.lines().min(rest.len()));
        add_outcome(text, index, outcome, lines)?;
        rest = later;
    }
    Ok(())
}

// Adds what is told of a run: its outcomes, and then its totals.
pub(crate) fn add_run(text: &mut String, run: &Run) -> Result<(), AllocError>
    ensures { let run = run.now in
        OnOk result (string_bytes text.new ≡ string_bytes text.old ++ outcomes_text 0 run.outcomes.items run.log.items ++ totals_line run.totals.committed run.totals.standing run.totals.undone) }
{
    add_outcomes(text, &run.outcomes, &run.log)?;
    let Totals {
        committed,
        standing,
        undone,
    } = run.totals;
    text.push_str("E ")?;
    end_with(
        text,
        &[u64::from(committed), u64::from(standing), u64::from(undone)],
    )
}

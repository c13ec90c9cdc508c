// What is printed of a schedule file: its end time and its calls, a line for each, or its fault.
#![tactic(auto)]

ghost use Rattle.std.specs.Prelude.{◌≡◌, ◌++◌, IfOk, string_bytes, OnOk};
ghost use Rattle.std.specs.List.{flat_map};
ghost use Rattle.listing.specs.Listed.{call_line, listed};

use schedule::{Call, ReadError, read};
use std::alloc::{AllocError, Global};

#[cfg(test)]
mod tests;

fn add_calls(text: &mut String, calls: &[Call]) -> Result<(), AllocError>
    ensures { OnOk result (string_bytes text.new ≡ string_bytes text.old ++ flat_map call_line calls.now) }
{
    for call in calls {
        writeln!(text, "{call}")?;
    }
    Ok(())
}

// The whole text that is printed of a file.
pub fn list(heap: Global, bytes: &[u8]) -> Result<String, AllocError>
    ensures { IfOk result (λ t. string_bytes t ≡ listed bytes.now) }
{
    let mut text = String::new(heap);
    // the arms are those of `reference` and `play`: one function for all would take the first arm as a closure over the text
    match read(heap, bytes) {
        Ok(schedule) => {
            writeln!(text, "end {}", schedule.end)?;
            add_calls(&mut text, &schedule.calls)?;
        }
        Err(ReadError::Faulty(fault)) => writeln!(text, "{fault}")?,
        Err(ReadError::NoMemory(error)) => return Err(error),
    }
    Ok(text)
}

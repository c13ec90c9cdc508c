// What the printed texts share: lines that end with numbers, and the lines of a log.
#![tactic(auto)]

ghost use Rattle.std.specs.Prelude.{◌≡◌, [], ◌∷◌, ◌++◌, string_bytes, OnOk};
ghost use Rattle.std.specs.List.{flat_map};
ghost use Rattle.bus.specs.Lines.{spaced, fields};
ghost use Rattle.report.specs.Lines.{log_line};

use bus::Message;
use few::{FEW, add_few};
use std::alloc::AllocError;

mod few;

// Ends a line with numbers, a space between each two.
pub fn end_with(text: &mut String, numbers: &[u64]) -> Result<(), AllocError>
    ensures { OnOk result (string_bytes text.new ≡ string_bytes text.old ++ (spaced numbers.now ++ 10 ∷ [])) }
{
    if numbers.is_empty() {
        return text.push('\n');
    }
    let mut rest = numbers;
    while rest.len() > FEW {
        let (few, more) = rest.split_at(FEW);
        add_few(text, few, b' ')?;
        rest = more;
    }
    add_few(text, rest, b'\n')
}

// Ends a line with the fields of a message.
pub fn end_with_fields(text: &mut String, message: &Message) -> Result<(), AllocError>
    ensures { OnOk result (string_bytes text.new ≡ string_bytes text.old ++ (fields message.now ++ 10 ∷ [])) }
{
    end_with(
        text,
        &[
            u64::from(message.time),
            u64::from(message.source),
            u64::from(message.number),
            u64::from(message.destination),
            u64::from(message.kind),
            u64::from(message.payload),
        ],
    )
}

// Adds a line for each message of a log.
pub fn add_lines(text: &mut String, log: &[Message]) -> Result<(), AllocError>
    ensures { OnOk result (string_bytes text.new ≡ string_bytes text.old ++ flat_map log_line log.now) }
{
    for message in log {
        text.push_str("L ")?;
        end_with_fields(text, message)?;
    }
    Ok(())
}

// The reference of a schedule: what the one-by-one machine makes of its offers, as text.
#![tactic(auto)]

ghost use Rattle.std.specs.Prelude.{◌≡◌, IfOk, string_bytes};
ghost use Rattle.oracle.specs.Laws.{LogIsLawful, NothingComesAfterTheEnd};
ghost use Rattle.oracle.specs.Texts.{reference_text};

mod offers;
mod runs;
#[cfg(test)]
mod tests;
mod texts;

use schedule::{ReadError, read};
use std::alloc::{AllocError, Global};
use texts::add_run;

// The whole text that is printed of a schedule file.
#[tactic(auto, using(crate::proofs::Lawful::nothing_comes_after_the_end))]
pub fn reference_log(heap: Global, bytes: &[u8]) -> Result<String, AllocError>
    ensures text_is_the_reference { IfOk result (λ t. string_bytes t ≡ reference_text bytes.now) }
    ensures log_is_lawful { LogIsLawful bytes.now }
    ensures nothing_comes_after_the_end { NothingComesAfterTheEnd bytes.now }
{
    let mut text = String::new(heap);
    // the arms are those of `list` and `play`: one function for all would take the first arm as a closure over the text
    match read(heap, bytes) {
        Ok(schedule) => add_run(heap, &mut text, &schedule)?,
        Err(ReadError::Faulty(fault)) => writeln!(text, "{fault}")?,
        Err(ReadError::NoMemory(error)) => return Err(error),
    }
    Ok(text)
}

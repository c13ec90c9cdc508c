// Prints what the one-by-one machine makes of the schedule file on standard input, or its fault.
#![tactic(auto)]

ghost use Rattle.std.specs.Prelude.{◌≡◌};
ghost use Rattle.oracle.specs.Laws.{LogIsLawful, NothingComesAfterTheEnd};
ghost use Rattle.oracle.specs.Texts.{reference_text};

use console::{TextOf, write_text_of};
use oracle::reference_log;
use std::alloc::{AllocError, Global};

#[derive(Drop)]
struct Reference;

impl TextOf for Reference {
    ghost Made = { λ _ file text. (text ≡ reference_text file) × LogIsLawful file × NothingComesAfterTheEnd file };

    fn text_of(self, heap: Global, file: &[u8]) -> Result<String, AllocError> {
        reference_log(heap, file)
    }
}

fn main(rt: HostRuntime) -> anyhow::Result<()> {
    write_text_of(rt.alloc(), rt.stdin(), &mut rt.stdout(), Reference)
}

// Plays the schedule file on standard input on a bench of three boards, and prints what its calls came to, or its fault.
#![tactic(auto)]

ghost use Rattle.std.specs.Prelude.{◌≡◌};
ghost use Rattle.playing.specs.Runs.{play_text, LinesAreTheSequentialLog};

use console::{TextOf, write_text_of};
use playing::play;
use std::alloc::{AllocError, Global};

#[derive(Drop)]
struct Playing;

impl TextOf for Playing {
    ghost Made = { λ _ file text. (text ≡ play_text file) × LinesAreTheSequentialLog file };

    fn text_of(self, heap: Global, file: &[u8]) -> Result<String, AllocError> {
        play(heap, file)
    }
}

fn main(rt: HostRuntime) -> anyhow::Result<()> {
    write_text_of(rt.alloc(), rt.stdin(), &mut rt.stdout(), Playing)
}

// `list` on a file that is one byte too long: only a run can show that this byte of standard input is read, whose bytes no contract knows.
// A program has one stored input, so that the same program with another input is a crate of its own.
#![tactic(auto)]

ghost use Rattle.std.specs.Prelude.{◌≡◌};
ghost use Rattle.listing.specs.Listed.{listed};

use console::{TextOf, write_text_of};
use listing::list;
use std::alloc::{AllocError, Global};

#[derive(Drop)]
struct Listing;

impl TextOf for Listing {
    ghost Made = { λ _ file text. text ≡ listed file };

    fn text_of(self, heap: Global, file: &[u8]) -> Result<String, AllocError> {
        list(heap, file)
    }
}

fn main(rt: HostRuntime) -> anyhow::Result<()> {
    write_text_of(rt.alloc(), rt.stdin(), &mut rt.stdout(), Listing)
}

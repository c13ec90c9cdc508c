// Lists the calls of the schedule file on standard input, or its fault.
#![tactic(auto)]

ghost use Rattle.std.specs.Prelude.{◌≡◌};
ghost use Rattle.listing.specs.Listed.{listed};

use console::{TextOf, write_text_of};
use listing::list;
use std::alloc::{AllocError, Global};

#[derive(Drop)]
struct Listing;

impl TextOf for Listing {
    ghost Made = { λ _ file text. text ≡ listed file };

    fn text_of(self, heap: Global, file: &[u8]) -> Result<String, AllocError> {
        list(heap, file)
    }
}

fn main(rt: HostRuntime) -> anyhow::Result<()> {
    write_text_of(rt.alloc(), rt.stdin(), &mut rt.stdout(), Listing)
}

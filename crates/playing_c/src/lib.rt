// Playing for callers in C and Rust: from a schedule's bytes to the bytes of the listing.
#![tactic(auto)]

ghost use Rattle.std.specs.Prelude.{◌≡◌, ◌^◌, ◌<◌, length};
ghost use Rattle.playing_c.specs.Copies.{Answers};

use playing::play;
use std::alloc::Global;

// What is answered where there is no memory for the listing, or it does not fit the output.
// A number, since the C interface has no `Option`.
const NOTHING: usize = usize::MAX;

// Writes the listing of a schedule to the front of the output, and answers its length. Where that is not possible
// it answers the largest number, and the output stays as it was.
#[unsafe(no_mangle)]
pub extern "C" fn majurofi_play(heap: Global, input: &[u8], output: &mut [u8]) -> usize
    ensures { Answers input.now output.old output.new result }
{
    match play(heap, input) {
        Ok(text) if text.len() <= output.len() => {
            let length = text.len();
            output[..length].copy_from_slice(text.as_bytes());
            length
        }
        _ => NOTHING,
    }
}

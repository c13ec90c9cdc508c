// The calls of a schedule, as calls of the bench.
ghost use Rattle.std.specs.Prelude.{◌≡◌, map, IfOk};
ghost use Rattle.playing.specs.Asked.{asked};

use model::Call;
use std::alloc::{AllocError, Global};

// A commit gets at most so many lines, whatever the schedule asks for.
const MOST_LINES: u16 = 256;

// What a schedule's call asks of the bench. This is no `From`, since both types are of other crates.
pub(crate) fn bench_call(call: schedule::Call) -> Call
    ensures { result ≡ asked call }
{
    match call {
        schedule::Call::Offer {
            time,
            destination,
            kind,
            payload,
        } => Call::Offer {
            time,
            destination,
            kind,
            payload,
        },
        schedule::Call::Deliver { index } => Call::Deliver {
            index: usize::from(index),
        },
        schedule::Call::Run { board } => Call::Run { board },
        schedule::Call::Outlook => Call::Outlook,
        schedule::Call::Commit { most } => Call::Commit {
            most: usize::from(most.min(MOST_LINES)),
        },
    }
}

// All calls of a schedule, in their order.
pub(crate) fn bench_calls(heap: Global, calls: &[schedule::Call]) -> Result<Vec<Call>, AllocError>
    ensures { IfOk result (λ v. v.items ≡ map asked calls.now) }
{
    calls.iter().copied().map(bench_call).collect(heap)
}

// The offers of a schedule: which the bus refuses, and the messages that the others are.
ghost use Rattle.std.specs.Prelude.{◌≡◌, ◌≤◌, length, IfOk};
ghost use Rattle.schedule.specs.Layout.{most_bytes};
ghost use Rattle.oracle.specs.Offers.{refusal_of, stimulus_of, stimuli_from, refusal_number};

use bus::{Message, OUTSIDE};
use fare_rack::board_count;
use schedule::Call;
use std::alloc::{AllocError, Global};

// Why an offer is refused, by its number.
#[derive(Clone, Copy)]
pub(crate) enum Refusal {
    NoBoard = 1,
    PastEnd = 2,
}

impl From<Refusal> for u8 {
    ghost from_gives = { λ refusal n. n ≡ refusal_number refusal };

    fn from(refusal: Refusal) -> u8 {
        // no derive makes a number of an enum
        refusal as u8
    }
}

// Why a call is refused, if it is an offer to no board, or else one past the end time.
pub(crate) fn refusal_of(end: u32, call: &Call) -> Option<Refusal>
    ensures { result ≡ refusal_of end call.now }
{
    match call {
        Call::Offer { destination, .. } if *destination >= board_count() => Some(Refusal::NoBoard),
        Call::Offer { time, .. } if *time > end => Some(Refusal::PastEnd),
        _ => None,
    }
}

// The message from outside that an accepted offer is, with this number.
fn stimulus_of(end: u32, number: u32, call: &Call) -> Option<Message>
    ensures { result ≡ stimulus_of end number call.now }
{
    match (call, refusal_of(end, call)) {
        (
            Call::Offer {
                time,
                destination,
                kind,
                payload,
            },
            None,
        ) => Some(Message {
            time: *time,
            source: OUTSIDE,
            number,
            destination: *destination,
            kind: *kind,
            payload: *payload,
        }),
        _ => None,
    }
}

// The stimuli of a run, in the order of the calls, numbered from 0 on. A number counts the stimuli before it, so that this is a loop.
pub(crate) fn stimuli_of(heap: Global, end: u32, calls: &[Call]) -> Result<Vec<Message>, AllocError>
    requires { length calls.now ≤ most_bytes }
    ensures { IfOk result (λ v. v.items ≡ stimuli_from end 0 calls.now) }
{
    let mut stimuli = Vec::new(heap);
    for call in calls {
        // no more than the bytes of a file: no `try_from`, which could give up
        if let Some(message) = stimulus_of(end, stimuli.len() as u32, call) {
            stimuli.push(message)?;
        }
    }
    Ok(stimuli)
}

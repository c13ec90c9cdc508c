// The call layer: a call's numbers, as its letter says.
ghost use Rattle.std.specs.Prelude.{◌≡◌, ◌<◌, ◌∷◌, ◌++◌, length, Some, MatchResult};
ghost use Rattle.schedule.specs.declared.call.CallFault.TheVariants.{Number};
ghost use Rattle.schedule.specs.Layout.{offer_letter, bytes_of, Within};
ghost use Rattle.schedule.specs.Faults.{call_fault};

use crate::number::{CutShort, read_number};

// What a schedule can ask of the bench. The bench's own call is a type of its own, so that neither passes for the other.
#[derive(Clone, Copy)]
pub enum Call {
    // A message from outside.
    Offer {
        time: u32,
        destination: u8,
        kind: u8,
        payload: u32,
    },
    // Takes an item in transit to its destination.
    Deliver {
        index: u16,
    },
    // Lets a board react to its first open message.
    Run {
        board: u8,
    },
    // Asks for the least message outstanding.
    Outlook,
    // Writes final lines to the log.
    Commit {
        most: u16,
    },
}

// What the call layer knows of a fault.
#[derive(Clone, Copy)]
pub enum CallFault {
    Number(CutShort),
    UnknownLetter,
}

impl From<CutShort> for CallFault {
    ghost from_gives = { λ e r. r ≡ Number e };

    fn from(e: CutShort) -> CallFault {
        CallFault::Number(e)
    }
}

// The numbers of an offer. The text that is packed has the like: in decimal, and with faults of its own.
fn read_offer(numbers: &[u8]) -> Result<(Call, &[u8]), CallFault>
    ensures { MatchResult result (λ x. (offer_letter ∷ numbers.now ≡ bytes_of x.0 ++ x.1.now) × Within x.0) (λ e. call_fault offer_letter numbers.now ≡ Some e) }
{
    let (time, rest) = read_number(numbers)?;
    let (destination, rest) = read_number(rest)?;
    let (kind, rest) = read_number(rest)?;
    let (payload, rest) = read_number(rest)?;
    let call = Call::Offer {
        time,
        destination,
        kind,
        payload,
    };
    Ok((call, rest))
}

// The call of a letter, from the bytes behind the letter; it hands on the bytes behind the call.
pub fn read_call(letter: char, numbers: &[u8]) -> Result<(Call, &[u8]), CallFault>
    ensures { MatchResult result (λ x. (letter ∷ numbers.now ≡ bytes_of x.0 ++ x.1.now) × Within x.0) (λ e. call_fault letter numbers.now ≡ Some e) }
{
    match letter {
        'o' => read_offer(numbers),
        'd' => {
            let (index, rest) = read_number(numbers)?;
            Ok((Call::Deliver { index }, rest))
        }
        'r' => {
            let (board, rest) = read_number(numbers)?;
            Ok((Call::Run { board }, rest))
        }
        'g' => Ok((Call::Outlook, numbers)),
        'c' => {
            let (most, rest) = read_number(numbers)?;
            Ok((Call::Commit { most }, rest))
        }
        _ => Err(CallFault::UnknownLetter),
    }
}

// The line layer: the end time, or a call, at the front of the text, and the lines that follow it.
ghost use Rattle.std.specs.Prelude.{◌≡◌, ◌^◌, ◌<◌, ◌≤◌, [], ◌∷◌, ◌++◌, decimal, MatchResult};
ghost use Rattle.schedule.specs.Layout.{offer_letter, Within};
ghost use Rattle.listing.specs.Listed.{call_line, end_line};
ghost use Rattle.packing.specs.Wrong.{NoDigit, FieldFault, EndingFault, FieldsFault, FirstFault, LineFault};

use crate::error::Why;
use crate::number::{Narrow, read_number};
use schedule::Call;

// A space and a number.
fn field<N: Narrow>(text: &[u8]) -> Result<(N, &[u8]), Why>
    ensures { MatchResult result (λ x. (text.now ≡ 32 ∷ decimal (N.value x.0) ++ x.1.now) × (N.value x.0 ≤ N.most) × NoDigit x.1.now) (λ why. FieldFault N.most text.now why) }
{
    let [b' ', number @ ..] = text else {
        return Err(Why::NoSpace);
    };
    read_number(number)
}

fn end_of_line(text: &[u8]) -> Result<&[u8], Why>
    ensures { MatchResult result (λ x. text.now ≡ 10 ∷ x.now) (λ why. EndingFault text.now why) }
{
    match text {
        [b'\n', rest @ ..] => Ok(rest),
        [_, ..] => Err(Why::ExtraText),
        [] => Err(Why::NoEndOfLine),
    }
}

// A space, a number and the end of the line.
fn last_field<N: Narrow>(text: &[u8]) -> Result<(N, &[u8]), Why>
    ensures { MatchResult result (λ x. (text.now ≡ 32 ∷ decimal (N.value x.0) ++ 10 ∷ x.1.now) × (N.value x.0 ≤ N.most)) (λ why. FieldsFault (N.most ∷ []) text.now why) }
{
    let (number, ending) = field(text)?;
    let rest = end_of_line(ending)?;
    Ok((number, rest))
}

// The line with the end time.
pub(crate) fn read_end_line(text: &[u8]) -> Result<(u32, &[u8]), Why>
    ensures { MatchResult result (λ x. (text.now ≡ end_line x.0 ++ x.1.now) × (x.0 < 2 ^ 32)) (λ why. FirstFault text.now why) }
{
    let [b'e', b'n', b'd', time @ ..] = text else {
        return Err(Why::NoEndTime);
    };
    last_field(time)
}

// The four numbers of an offer. A file has the like: in bytes, and with faults of its own.
fn read_offer(fields: &[u8]) -> Result<(Call, &[u8]), Why>
    ensures { MatchResult result (λ x. (offer_letter ∷ fields.now ≡ call_line x.0 ++ x.1.now) × Within x.0) (λ why. LineFault (offer_letter ∷ fields.now) why) }
{
    let (time, rest) = field(fields)?;
    let (destination, rest) = field(rest)?;
    let (kind, rest) = field(rest)?;
    let (payload, rest) = last_field(rest)?;
    let call = Call::Offer {
        time,
        destination,
        kind,
        payload,
    };
    Ok((call, rest))
}

// The line of a call, from the text behind its letter.
pub(crate) fn read_call_line(letter: char, fields: &[u8]) -> Result<(Call, &[u8]), Why>
    ensures { MatchResult result (λ x. (letter ∷ fields.now ≡ call_line x.0 ++ x.1.now) × Within x.0) (λ why. LineFault (letter ∷ fields.now) why) }
{
    match letter {
        'o' => read_offer(fields),
        'd' => {
            let (index, rest) = last_field(fields)?;
            Ok((Call::Deliver { index }, rest))
        }
        'r' => {
            let (board, rest) = last_field(fields)?;
            Ok((Call::Run { board }, rest))
        }
        'g' => {
            let rest = end_of_line(fields)?;
            Ok((Call::Outlook, rest))
        }
        'c' => {
            let (most, rest) = last_field(fields)?;
            Ok((Call::Commit { most }, rest))
        }
        _ => Err(Why::UnknownCall),
    }
}

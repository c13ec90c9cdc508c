// The number layer: a number in decimal at the front of the text, and what follows it.
ghost use Rattle.std.specs.Prelude.{◌≡◌, ℕ, ◌+◌, ◌^◌, ◌<◌, ◌≤◌, ◌∷◌, ◌++◌, decimal, MatchOption, MatchResult};
ghost use Rattle.std.proofs.Common.{rules};
ghost use Rattle.packing.specs.Wrong.{NoDigit, NumberFault};

use crate::error::Why;

// The value of the digit that the text opens with.
fn digit(text: &[u8]) -> Option<(u8, &[u8])>
    ensures { MatchOption result (NoDigit text.now) (λ x. (text.now ≡ (48 + x.0) ∷ x.1.now) × (x.0 < 10)) }
{
    match text {
        [byte @ b'0'..=b'9', rest @ ..] => Some((*byte - b'0', rest)),
        _ => None,
    }
}

// A type of numbers, which says how large they may be. `TryFrom` alone does not say it, and the loop below needs it.
pub(crate) trait Narrow: Copy {
    ghost value: { Self → ℕ };

    ghost most: { ℕ };

    // The number in this type, if it fits.
    fn narrow(n: u64) -> Option<Self>
        ensures { MatchOption result (most < n) (λ x. (value x ≡ n) × (n ≤ most)) };

    ghost most_is_small: { most < 2 ^ 32 };
}

impl Narrow for u8 {
    ghost value = { λ n. n };

    ghost most = { 255 };

    ghost most_is_small = { Prim.search rules };

    fn narrow(n: u64) -> Option<u8> {
        u8::try_from(n).ok()
    }
}

impl Narrow for u16 {
    ghost value = { λ n. n };

    ghost most = { 65535 };

    ghost most_is_small = { Prim.search rules };

    fn narrow(n: u64) -> Option<u16> {
        u16::try_from(n).ok()
    }
}

impl Narrow for u32 {
    ghost value = { λ n. n };

    ghost most = { 4294967295 };

    ghost most_is_small = { Prim.search rules };

    fn narrow(n: u64) -> Option<u32> {
        u32::try_from(n).ok()
    }
}

// A number that fits its type. Not by `parse`, which takes leading zeros and no text behind the digits.
pub(crate) fn read_number<N: Narrow>(text: &[u8]) -> Result<(N, &[u8]), Why>
    ensures { MatchResult result (λ x. (text.now ≡ decimal (N.value x.0) ++ x.1.now) × (N.value x.0 ≤ N.most) × NoDigit x.1.now) (λ why. NumberFault N.most text.now why) }
{
    let (first, mut rest) = digit(text).ok_or(Why::BadNumber)?;
    let mut value = u64::from(first);
    while let Some(number) = N::narrow(value) {
        let Some((next, after)) = digit(rest) else {
            return Ok((number, rest));
        };
        if value == 0 {
            return Err(Why::BadNumber);
        }
        value = value * 10 + u64::from(next);
        rest = after;
    }
    Err(Why::TooLarge)
}

// The number layer: a little-endian number at the front of the bytes, and what follows it.
ghost use Rattle.std.specs.Prelude.{◌≡◌, ℕ, ◌^◌, ◌<◌, List, [], ◌∷◌, ◌++◌, length, MatchOption, MatchResult};
ghost use Rattle.schedule.specs.Layout.{two, four};

// The bytes ended within a number.
#[derive(Clone, Copy)]
pub struct CutShort;

// A number of a fixed size, as the layout writes it: the lowest byte first. An impl for each width: a const parameter
// cannot choose the type.
pub trait LittleEndian {
    ghost layout: { Self → List ℕ };

    ghost size: { ℕ };

    ghost Fits: { Self → Type 0 };

    // The number that the bytes open with, and the bytes behind it.
    fn first(bytes: &[u8]) -> Option<(Self, &[u8])>
        ensures { MatchOption result (length bytes.now < size) (λ x. (bytes.now ≡ layout x.0 ++ x.1.now) × Fits x.0) };
}

impl LittleEndian for u8 {
    ghost layout = { λ n. n ∷ [] };

    ghost size = { 1 };

    ghost Fits = { λ n. n < 2 ^ 8 };

    fn first(bytes: &[u8]) -> Option<(u8, &[u8])> {
        let [byte, rest @ ..] = bytes else {
            return None;
        };
        Some((*byte, rest))
    }
}

impl LittleEndian for u16 {
    ghost layout = { two };

    ghost size = { 2 };

    ghost Fits = { λ n. n < 2 ^ 16 };

    fn first(bytes: &[u8]) -> Option<(u16, &[u8])> {
        let [low, high, rest @ ..] = bytes else {
            return None;
        };
        Some((u16::from_le_bytes([*low, *high]), rest))
    }
}

impl LittleEndian for u32 {
    ghost layout = { four };

    ghost size = { 4 };

    ghost Fits = { λ n. n < 2 ^ 32 };

    fn first(bytes: &[u8]) -> Option<(u32, &[u8])> {
        let [first, second, third, fourth, rest @ ..] = bytes else {
            return None;
        };
        Some((u32::from_le_bytes([*first, *second, *third, *fourth]), rest))
    }
}

// The number that the bytes open with, and the bytes behind it.
pub fn read_number<N: LittleEndian>(bytes: &[u8]) -> Result<(N, &[u8]), CutShort>
    ensures { MatchResult result (λ x. (bytes.now ≡ N.layout x.0 ++ x.1.now) × N.Fits x.0) (λ _. length bytes.now < N.size) }
{
    N::first(bytes).ok_or(CutShort)
}

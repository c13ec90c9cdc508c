// Why a saver refuses a call, and that it then stays as it was.
ghost use Rattle.std.specs.Prelude.{◌≡◌};
ghost use Rattle.savers.specs.Refusals.{number_of, RefusedTakeLeavesTheRow, RefusedBackLeavesTheRow, RefusedForgetLeavesTheRow};

#[derive(Clone, Copy)]
pub enum Refusal {
    // It holds as many messages as it can.
    Full = 27,
    // It holds fewer messages than were named.
    TooFew = 28,
}

// The number by which the refusal is told.
impl From<Refusal> for u8 {
    ghost from_gives = { λ refusal number. number ≡ number_of refusal };

    fn from(refusal: Refusal) -> u8 {
        // no derive makes a number of an enum
        refusal as u8
    }
}

// A refused call leaves the row as it was.
pub fn refusal_leaves_the_row()
    ensures take { RefusedTakeLeavesTheRow }
    ensures back { RefusedBackLeavesTheRow }
    ensures forget { RefusedForgetLeavesTheRow }
{}

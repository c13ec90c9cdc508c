// Why a rack refuses a call, and that it then stays as it was.
ghost use Rattle.std.specs.Prelude.{◌≡◌};
ghost use Rattle.racks.specs.declared.refusal.Refusal.TheVariants.{Saver};
ghost use Rattle.racks.specs.Refusals.{number_of, RefusedBeginLeavesTheRows, RefusedTakeLeavesTheRows, RefusedBackLeavesTheRows, RefusedForgetLeavesTheRows};

#[derive(Clone, Copy)]
pub enum Refusal {
    // It has no saver at that address.
    NoBoard,
    // The saver at that address refuses.
    Saver(savers::Refusal),
}

impl From<savers::Refusal> for Refusal {
    ghost from_gives = { λ e r. r ≡ Saver e };

    fn from(refusal: savers::Refusal) -> Refusal {
        Refusal::Saver(refusal)
    }
}

// The number by which the refusal is told.
impl From<Refusal> for u8 {
    ghost from_gives = { λ refusal number. number ≡ number_of refusal };

    fn from(refusal: Refusal) -> u8 {
        match refusal {
            Refusal::NoBoard => 1,
            Refusal::Saver(refusal) => u8::from(refusal),
        }
    }
}

// A refused call leaves all rows as they were.
pub fn refusal_leaves_the_rows()
    ensures begin { RefusedBeginLeavesTheRows }
    ensures take { RefusedTakeLeavesTheRows }
    ensures back { RefusedBackLeavesTheRows }
    ensures forget { RefusedForgetLeavesTheRows }
{}

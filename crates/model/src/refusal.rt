// Why the bench refuses a call.
ghost use Rattle.std.specs.Prelude.{◌≡◌};
ghost use Rattle.model.specs.Refusals.{refusal_number};

#[derive(Clone, Copy)]
pub enum Refusal {
    // no board has that address
    NoBoard = 1,
    // the offered time is above the end time
    PastEnd = 2,
    // the offered time is below the last committed line's
    BeforeLastLine = 20,
    // too few places in transit
    TransitFull = 21,
    // the board's in-row and early anti-messages are full
    BoardFull = 22,
    // nothing is open on that board
    NothingOpen = 23,
    // no item in transit has that index
    NoItem = 24,
    // all offers are spent
    OffersSpent = 25,
    // all runs are spent
    RunsSpent = 26,
}

// The number by which the refusal is told.
impl From<Refusal> for u8 {
    ghost from_gives = { λ refusal number. number ≡ refusal_number refusal };

    fn from(refusal: Refusal) -> u8 {
        // no derive makes a number of an enum
        refusal as u8
    }
}

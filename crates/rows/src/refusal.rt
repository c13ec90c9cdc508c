// Why a row refuses a record.
ghost use Rattle.std.specs.Prelude.{◌≡◌};
ghost use Rattle.rows.specs.Refusals.{refusal_number};

#[derive(Clone, Copy)]
pub enum Refusal {
    // the row fills its memory
    Full = 19,
}

// The number by which the refusal is told.
impl From<Refusal> for u8 {
    ghost from_gives = { λ refusal number. number ≡ refusal_number refusal };

    fn from(refusal: Refusal) -> u8 {
        // no derive makes a number of an enum
        refusal as u8
    }
}

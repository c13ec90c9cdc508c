// What is left of a bench that takes no more calls.
ghost use Rattle.std.specs.Prelude.{◌≡◌};

// How many lines were committed, how many events stand, and how many were undone.
#[derive(Clone, Copy)]
pub struct Totals {
    pub committed: u32,
    pub standing: u32,
    pub undone: u32,
}

// A bench that was closed: its totals, and no way to call it again.
#[derive(Clone, Copy)]
pub struct Closed {
    pub(crate) totals: Totals,
}

impl Closed {
    pub fn totals(&self) -> Totals
        ensures { result ≡ self.now.totals }
    {
        self.totals
    }
}

// What an arrival does to a board.
ghost use Rattle.std.specs.Prelude.{◌≡◌};
ghost use Rattle.queues.specs.Arrivals.{stay_by, needs_by};

#[derive(Clone, Copy)]
pub(crate) enum Effect {
    // a message that meets its early anti-message: both vanish
    MeetsEarly,
    // a message that is put into the in-row, where so many events stay
    Opens(usize),
    // an anti-message that meets its open message: both vanish
    Withdraws,
    // an anti-message whose message stands: so many events stay, and then both vanish
    Undoes(usize),
    // an anti-message that is early
    Waits,
}

impl Effect {
    // How many of so many standing events stay.
    pub(crate) fn stay(self, standing: usize) -> usize
        ensures { result ≡ stay_by self standing }
    {
        match self {
            Effect::MeetsEarly | Effect::Withdraws | Effect::Waits => standing,
            Effect::Opens(stay) => stay,
            Effect::Undoes(stay) => stay,
        }
    }

    // Whether one more place is needed.
    pub(crate) fn needs_place(self) -> bool
        ensures { result ≡ needs_by self }
    {
        match self {
            Effect::Opens(_) | Effect::Waits => true,
            Effect::MeetsEarly | Effect::Withdraws | Effect::Undoes(_) => false,
        }
    }
}

// What one reaction gives: none, one or two, in their order.
ghost use Rattle.std.specs.Prelude.{◌≡◌, length};
ghost use Rattle.bus.specs.Reactions.{listed};

#[derive(Clone, Copy, PartialEq)]
pub enum UpToTwo<T> {
    Nothing,
    One(T),
    Two(T, T),
}

impl<T> UpToTwo<T> {
    pub fn len(&self) -> usize
        ensures { result ≡ length (listed self.now) }
    {
        match self {
            UpToTwo::Nothing => 0,
            UpToTwo::One(_) => 1,
            UpToTwo::Two(_, _) => 2,
        }
    }
}

// What a call came to.
ghost use Rattle.std.specs.Prelude.{◌≡◌};
ghost use Rattle.model.specs.Outcomes.{lines_in};

use crate::refusal::Refusal;
use bus::Message;

#[derive(Clone, Copy)]
pub enum Outcome {
    // an offer was admitted, and this is the stimulus's number
    Offered(u32),
    // an item was delivered, and so many events were undone
    Delivered(usize),
    // a board reacted, and sent so many messages
    Ran(usize),
    // the least message outstanding, if there is any
    Looked(Option<Message>),
    // so many lines were committed
    Committed(usize),
    // the call was refused, and nothing moved
    Refused(Refusal),
}

impl Outcome {
    // How many lines the call wrote.
    pub fn lines(&self) -> usize
        ensures { result ≡ lines_in self.now }
    {
        match self {
            Outcome::Committed(lines) => *lines,
            _ => 0,
        }
    }
}

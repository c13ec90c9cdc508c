// What is in transit: a message, or an anti-message that takes one back.
ghost use Rattle.std.specs.Prelude.{◌≡◌};
ghost use Rattle.model.specs.State.{inside};

use bus::Message;

#[derive(Clone, Copy)]
pub enum Item {
    // a message on its way
    Plus(Message),
    // an anti-message: it meets its message at the destination, and both vanish
    Minus(Message),
}

impl Item {
    // The message that is on its way, or is taken back.
    pub fn message(&self) -> Message
        ensures { result ≡ inside self.now }
    {
        match self {
            Item::Plus(message) | Item::Minus(message) => *message,
        }
    }
}

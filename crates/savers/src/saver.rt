// What a saver is: a board's rule, and a row of words from which messages can be taken back.
ghost use Rattle.std.specs.Prelude.{◌≡◌, ℕ, ◌≤◌, [], ◌∷◌, length};
ghost use Rattle.bus.specs.declared.Words.{Words};
ghost use Rattle.bus.specs.Reactions.{Rule};
ghost use Rattle.savers.specs.Rows.{Row, longest, follow, newest, row_taken, answer_taken, row_back, row_forgot, answer_if_has};

use super::refusal::Refusal;
use bus::{Message, Sends, Words};

// How many messages a saver holds at most.
pub const CAPACITY: usize = 32;

// Each saver asks in each call whether it has room, or so many: a method for that would be called by a line as long.
pub trait Saver {
    // How the board inside reacts.
    ghost rule: { Rule };

    // The start's words, then the words after each message that is held.
    ghost row: { Self → Row };

    // Makes the row a start alone.
    fn begin(&mut self, start: Words)
        ensures { row self.new ≡ start ∷ [] };

    // Appends the rule's words for the last quadruple and a message, and answers the rule's sends. A full saver refuses.
    fn take(&mut self, message: &Message) -> Result<Sends, Refusal>
        ensures left { row self.new ≡ row_taken rule (row self.old) message.now }
        ensures answer { result ≡ answer_taken rule (row self.old) message.now };

    // Keeps the start and the first n after it. Refuses where fewer follow.
    fn back(&mut self, n: usize) -> Result<(), Refusal>
        ensures left { row self.new ≡ row_back (row self.old) n }
        ensures answer { result ≡ answer_if_has (row self.old) n };

    // Makes the n-th after the start the new start. Refuses where fewer follow.
    fn forget(&mut self, n: usize) -> Result<(), Refusal>
        ensures left { row self.new ≡ row_forgot (row self.old) n }
        ensures answer { result ≡ answer_if_has (row self.old) n };

    // The last words.
    fn words(&self) -> Words
        ensures { result ≡ newest (row self.now) };

    // How many follow the start.
    fn held(&self) -> usize
        ensures { result ≡ follow (row self.now) };

    // There is always a start.
    ghost begun: { (s : Self) → 1 ≤ length (row s) };

    // At most CAPACITY messages are held.
    ghost bounded: { (s : Self) → length (row s) ≤ longest };
}

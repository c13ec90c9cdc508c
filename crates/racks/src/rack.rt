// What a rack is: savers side by side, each called by its address from 0 on. A call to an address that has none is refused before anything else.
ghost use Rattle.std.specs.Prelude.{◌≡◌, ℕ, min, List, length, take};
ghost use Rattle.bus.specs.Reactions.{Rule};
ghost use Rattle.savers.specs.Rows.{Row};
ghost use Rattle.racks.specs.Starts.{with_words};
ghost use Rattle.racks.specs.Racks.{Sized, rows_begun, rows_taken, rows_back, rows_forgot, answers_begun, answers_taken, answers_if_has, newest_at, follow_at};

use super::refusal::Refusal;
use bus::{Message, Sends, Words};

pub trait Rack {
    // How the board at each address reacts.
    ghost rules: { List Rule };

    // The row of the saver at each address.
    ghost rows: { Self → List Row };

    // How many savers it has: 256 where it has more, since no address goes further.
    fn count() -> u16
        ensures { result ≡ min (length rules) 256 };

    // How many of its savers are on the bus, from address 0 on: at most eight.
    fn boards() -> u8
        ensures { result ≡ min (length rules) 8 }
    {
        // at most eight: no `try_from`, which could give up
        Self::count().min(8) as u8
    }

    // Makes the row at an address a start alone.
    fn begin(&mut self, address: u8, start: Words) -> Result<(), Refusal>
        ensures left { rows self.new ≡ rows_begun (rows self.old) address start }
        ensures answer { result ≡ answers_begun (rows self.old) address };

    // Makes the row of each board on the bus a start alone, with the board's own start words.
    fn begin_all(&mut self, starts: &[Words; 8])
        ensures { rows self.new ≡ with_words (take (min (length rules) 8) starts.now) (rows self.old) }
    {
        for (address, start) in (0..Self::boards()).zip(starts) {
            // the rack has every board below that number, so this is never refused
            let _ = self.begin(address, *start);
        }
    }

    // Lets the board at an address react to a message, and answers its sends.
    fn take(&mut self, address: u8, message: &Message) -> Result<Sends, Refusal>
        ensures left { rows self.new ≡ rows_taken rules (rows self.old) address message.now }
        ensures answer { result ≡ answers_taken rules (rows self.old) address message.now };

    // Keeps the start at an address and the first n after it.
    fn back(&mut self, address: u8, n: usize) -> Result<(), Refusal>
        ensures left { rows self.new ≡ rows_back (rows self.old) address n }
        ensures answer { result ≡ answers_if_has (rows self.old) address n };

    // Makes the n-th after the start at an address its new start.
    fn forget(&mut self, address: u8, n: usize) -> Result<(), Refusal>
        ensures left { rows self.new ≡ rows_forgot (rows self.old) address n }
        ensures answer { result ≡ answers_if_has (rows self.old) address n };

    // The last words at an address.
    fn words(&self, address: u8) -> Result<Words, Refusal>
        ensures { result ≡ newest_at (rows self.now) address };

    // How many follow the start at an address.
    fn held(&self, address: u8) -> Result<usize, Refusal>
        ensures { result ≡ follow_at (rows self.now) address };

    // Each address has its rule and its row.
    ghost level: { (s : Self) → length (rows s) ≡ length rules };

    // Each row has its start, and at most a saver's capacity more.
    ghost sized: { (s : Self) → Sized (rows s) };
}

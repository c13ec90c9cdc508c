// What waits at one board: its in-row, its out-row and its early anti-messages.
ghost use Rattle.std.specs.Prelude.{◌≡◌, ℕ, ◌+◌, ◌≤◌, length, slice_index};
ghost use Rattle.rows.specs.Held.{held};
ghost use Rattle.queues.specs.Sums.{sum};

use bus::{Message, Sent};
use rows::Row;

mod arrivals;
mod changes;
mod commits;
mod outlook;
mod reads;
mod runs;

// As many events stand as `sends` has numbers.
#[derive(Clone, Copy)]
pub struct BoardQueues {
    // the in-row: the messages of the standing events, and behind them the open ones
    messages: Row<Message, 32>,
    // how many messages each standing event sent
    sends: Row<u8, 32>,
    // the out-row: what the standing events sent, and what caused it
    outputs: Row<Sent, 64>,
    // anti-messages whose message has not come yet
    early: Row<Message, 32>,
    // how many messages the committed events sent
    sent: u32,
    ghost fits: { length (held messages) + length (held early) ≤ 32 },
    ghost stands: { length (held sends) ≤ length (held messages) },
    ghost tallies: { sum (held sends) ≡ length (held outputs) },
    ghost twos: { ((k : ℕ) → slice_index (held sends) k ≤ 2) },
}

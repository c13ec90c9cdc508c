// The boards of the bus: the interface that every board has, and three kinds of board behind it.
#![tactic(auto)]

mod board;
mod cases;
mod fare_computer;
mod reader;
#[cfg(test)]
mod tests;
mod ticker;

pub use board::Board;
pub use cases::{
    card_is_ignored_while_waiting, card_sends_inquiry, even_verdict_counts_as_refused,
    same_card_gets_verdict_zero, tick_sends_beat_and_next_tick,
};
pub use fare_computer::FareComputer;
pub use reader::Reader;
pub use ticker::Ticker;

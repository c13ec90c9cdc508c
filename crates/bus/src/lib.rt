// What travels on the bus: messages, a board's four words, and what a board sends.
#![tactic(auto)]

mod blank;
mod kinds;
mod order;
mod show;
mod theorems;
mod up_to_two;

pub use blank::{BLANK, ZEROS};
pub use kinds::{BEAT, CARD, INQUIRY, OUTSIDE, TICK, VERDICT, kinds_are_numbered};
pub use theorems::{
    at_one_time_the_lower_source_comes_first, messages_are_totally_ordered,
    sent_records_are_totally_ordered,
};
pub use up_to_two::UpToTwo;

// A message on the bus. The fields stand in the order in which they decide which of two messages comes first.
#[derive(Clone, Copy, PartialEq, PartialOrd)]
pub struct Message {
    // in seconds
    pub time: u32,
    // the sending board's address, or `OUTSIDE`
    pub source: u8,
    // how many messages that source sent before
    pub number: u32,
    pub destination: u8,
    pub kind: u8,
    pub payload: u32,
}

// A record of an out-row: a message that was sent, and the message whose reaction sent it.
#[derive(Clone, Copy)]
pub struct Sent {
    pub message: Message,
    pub cause: Message,
}

// The four words that are all a board remembers.
#[derive(Clone, Copy, PartialEq)]
pub struct Words {
    pub w0: u32,
    pub w1: u32,
    pub w2: u32,
    pub w3: u32,
}

// What a reaction asks to send: where to, how much later than at once, and what.
#[derive(Clone, Copy, PartialEq)]
pub struct Send {
    pub address: u8,
    pub lag: u16,
    pub kind: u8,
    pub payload: u32,
}

// The sends of one reaction, in their order: at most two.
pub type Sends = UpToTwo<Send>;

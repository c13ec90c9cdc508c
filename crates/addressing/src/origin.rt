// Where sends come from, and the messages that they become.
ghost use Rattle.std.specs.Prelude.{◌≡◌, ◌+◌, ◌^◌, ◌<◌};
ghost use Rattle.bus.specs.Reactions.{listed};
ghost use Rattle.addressing.specs.Settings.{addressed_in};
ghost use Rattle.addressing.specs.Batches.{one_addressed, all_in_32_bits};

use crate::Batch;
use bus::{Message, Send, Sends};

// The board that reacts and the time of its reaction; how many boards the bus has, and when it ends.
#[derive(Clone, Copy)]
pub struct Origin {
    pub boards: u8,
    pub end: u32,
    pub source: u8,
    pub time: u32,
}

impl Origin {
    // One send, unless it goes to no board or past the end time.
    fn message(&self, number: u32, send: &Send) -> Option<Message>
        ensures { result ≡ one_addressed self.now.boards self.now.end self.now.source self.now.time number send.now }
    {
        let time = u64::from(self.time) + 1 + u64::from(send.lag);
        let arrives = send.address < self.boards && time <= u64::from(self.end);
        arrives.then(|| Message {
            // the end time fits, and so does what is not after it
            time: time as u32,
            source: self.source,
            number,
            destination: send.address,
            kind: send.kind,
            payload: send.payload,
        })
    }

    // All sends, numbered from this number on; one that is dropped takes no number. After the last number of 32 bits comes 0.
    pub fn messages(&self, number: u32, sends: &Sends) -> Batch
        ensures numbered_from { number + 1 < 2 ^ 32 → listed result ≡ addressed_in self.now.boards self.now.end self.now.source self.now.time number (listed sends.now) }
        ensures numbers_go_round { listed result ≡ all_in_32_bits (addressed_in self.now.boards self.now.end self.now.source self.now.time number (listed sends.now)) }
    {
        match sends {
            Sends::Nothing => Batch::Nothing,
            Sends::One(send) => self
                .message(number, send)
                .map_or(Batch::Nothing, Batch::One),
            Sends::Two(first, second) => match self.message(number, first) {
                Some(message) => self
                    .message(number.wrapping_add(1), second)
                    .map_or(Batch::One(message), |other| Batch::Two(message, other)),
                None => self
                    .message(number, second)
                    .map_or(Batch::Nothing, Batch::One),
            },
        }
    }
}

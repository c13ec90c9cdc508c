// A board that gives verdicts on inquiries, and counts beats.
ghost use Rattle.std.specs.Prelude.{◌≡◌};
ghost use Rattle.bus.specs.Reactions.{zeros};
ghost use Rattle.boards.specs.FareComputer.{fare_computer_state, fare_computer_rule};

use super::board::Board;
use bus::{BEAT, INQUIRY, Message, Send, Sends, VERDICT, Words};

#[derive(Clone, Copy, Default)]
pub struct FareComputer {
    last: u32,
    inquiries: u32,
    beats: u32,
    spare: u32,
}

impl FareComputer {
    // A fare computer of four zeros.
    pub fn new() -> Self
        ensures { fare_computer_state result ≡ zeros }
    {
        Self::default()
    }
}

impl Board for FareComputer {
    ghost state = { fare_computer_state };

    ghost rule = { fare_computer_rule };

    fn load(&mut self, words: Words) {
        self.last = words.w0;
        self.inquiries = words.w1;
        self.beats = words.w2;
        self.spare = words.w3;
    }

    fn words(&self) -> Words {
        Words {
            w0: self.last,
            w1: self.inquiries,
            w2: self.beats,
            w3: self.spare,
        }
    }

    fn react(&mut self, message: &Message) -> Sends {
        match message.kind {
            INQUIRY => {
                let payload = if message.payload == self.last { 0 } else { 1 };
                self.last = message.payload;
                self.inquiries = self.inquiries.wrapping_add(1);
                Sends::One(Send {
                    address: message.source,
                    lag: 2,
                    kind: VERDICT,
                    payload,
                })
            }
            BEAT => {
                self.beats = self.beats.wrapping_add(1);
                Sends::Nothing
            }
            _ => Sends::Nothing,
        }
    }
}

// A board that reads cards, asks about each one, and counts the verdicts.
ghost use Rattle.std.specs.Prelude.{◌≡◌};
ghost use Rattle.bus.specs.Reactions.{zeros};
ghost use Rattle.boards.specs.Reader.{reader_state, reader_rule};

use super::board::Board;
use bus::{CARD, INQUIRY, Message, Send, Sends, VERDICT, Words};

// The modes are numbers, and no enum: `load` takes any four words, and `words` tells them again as they were.

// The mode in which it takes a card.
const READY: u32 = 0;

// The mode in which it waits for the verdict on its card.
const WAITING: u32 = 1;

#[derive(Clone, Copy, Default)]
pub struct Reader {
    mode: u32,
    card: u32,
    accepted: u32,
    refused: u32,
}

impl Reader {
    // A reader of four zeros.
    pub fn new() -> Self
        ensures { reader_state result ≡ zeros }
    {
        Self::default()
    }
}

impl Board for Reader {
    ghost state = { reader_state };

    ghost rule = { reader_rule };

    fn load(&mut self, words: Words) {
        self.mode = words.w0;
        self.card = words.w1;
        self.accepted = words.w2;
        self.refused = words.w3;
    }

    fn words(&self) -> Words {
        Words {
            w0: self.mode,
            w1: self.card,
            w2: self.accepted,
            w3: self.refused,
        }
    }

    fn react(&mut self, message: &Message) -> Sends {
        match (self.mode, message.kind) {
            (READY, CARD) => {
                self.mode = WAITING;
                self.card = message.payload;
                Sends::One(Send {
                    address: 0,
                    lag: 4,
                    kind: INQUIRY,
                    payload: message.payload,
                })
            }
            (WAITING, VERDICT) => {
                self.mode = READY;
                if message.payload % 2 == 1 {
                    self.accepted = self.accepted.wrapping_add(1);
                } else {
                    self.refused = self.refused.wrapping_add(1);
                }
                Sends::Nothing
            }
            _ => Sends::Nothing,
        }
    }
}

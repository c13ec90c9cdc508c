// A board that beats at every tick, and sends itself the next tick while some are left.
ghost use Rattle.std.specs.Prelude.{◌≡◌};
ghost use Rattle.bus.specs.Reactions.{zeros};
ghost use Rattle.boards.specs.Ticker.{ticker_state, ticker_rule};

use super::board::Board;
use bus::{BEAT, Message, Send, Sends, TICK, Words};

#[derive(Clone, Copy, Default)]
pub struct Ticker {
    period: u32,
    left: u32,
    address: u32,
    count: u32,
}

impl Ticker {
    // A ticker of four zeros.
    pub fn new() -> Self
        ensures { ticker_state result ≡ zeros }
    {
        Self::default()
    }
}

impl Board for Ticker {
    ghost state = { ticker_state };

    ghost rule = { ticker_rule };

    fn load(&mut self, words: Words) {
        self.period = words.w0;
        self.left = words.w1;
        self.address = words.w2;
        self.count = words.w3;
    }

    fn words(&self) -> Words {
        Words {
            w0: self.period,
            w1: self.left,
            w2: self.address,
            w3: self.count,
        }
    }

    fn react(&mut self, message: &Message) -> Sends {
        if message.kind != TICK {
            return Sends::Nothing;
        }
        self.count = self.count.wrapping_add(1);
        let beat = Send {
            // casts behind a remainder, here and below: no `try_from`, which could give up
            address: (self.address % 256) as u8,
            lag: 0,
            kind: BEAT,
            payload: self.count,
        };
        if self.left == 0 {
            return Sends::One(beat);
        }
        self.left -= 1;
        let next_tick = Send {
            address: message.destination,
            lag: (self.period % 65536) as u16,
            kind: TICK,
            payload: 0,
        };
        Sends::Two(beat, next_tick)
    }
}

// What unused places of a memory hold, and the words of a board that is given none.
use crate::{Message, Words};

pub const BLANK: Message = Message {
    time: 0,
    number: 0,
    payload: 0,
    source: 0,
    destination: 0,
    kind: 0,
};

pub const ZEROS: Words = Words {
    w0: 0,
    w1: 0,
    w2: 0,
    w3: 0,
};

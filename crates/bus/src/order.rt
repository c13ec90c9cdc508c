// The orders by which messages and sent records stand in rows.
ghost use Rattle.bus.specs.Order.{message_before, message_total, sent_before, sent_total};

use crate::{Message, Sent};
use rows::TotalOrder;

// By time, then source, number, destination, kind and payload, the smaller first.
impl TotalOrder for Message {
    ghost earlier = { message_before };

    ghost total = { message_total };

    fn before(&self, other: &Message) -> bool {
        self < other
    }
}

// By the message's number, then the cause, then the message: not the order of the fields, so it is not derived.
// With `<` over three-tuples no proof closed.
impl TotalOrder for Sent {
    ghost earlier = { sent_before };

    ghost total = { sent_total };

    fn before(&self, other: &Sent) -> bool {
        let mine = self.message.number;
        let theirs = other.message.number;
        if mine != theirs {
            return mine < theirs;
        }
        self.cause.before(&other.cause)
            || (!other.cause.before(&self.cause) && self.message.before(&other.message))
    }
}

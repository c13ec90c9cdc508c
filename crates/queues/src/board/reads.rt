// What is read of one board's queues.
ghost use Rattle.std.specs.Prelude.{◌≡◌, ◌+◌, length, take, drop, nat_le};
ghost use Rattle.model.specs.State.{no_queues, issued, sends_of, standing_of};
ghost use Rattle.model.specs.Deliver.{room};
ghost use Rattle.model.specs.Lines.{front_of};
ghost use Rattle.queues.specs.Entries.{queues_of, first_message};
ghost use Rattle.queues.specs.Memory.{messages_of};

use super::BoardQueues;
use crate::sums::total;
use bus::{BLANK, Message, Sent};
use rows::Row;

impl BoardQueues {
    // Nothing waits.
    pub(crate) fn empty() -> BoardQueues
        ensures { queues_of result ≡ no_queues }
    {
        BoardQueues {
            messages: Row::over([BLANK; 32]),
            sends: Row::over([0; 32]),
            outputs: Row::over([Sent {
                message: BLANK,
                cause: BLANK,
            }; 64]),
            early: Row::over([BLANK; 32]),
            sent: 0,
        }
    }

    // The open messages.
    pub(super) fn open_ones(&self) -> &[Message]
        ensures { result.now ≡ (queues_of self.now).open_ones }
    {
        &self.messages.as_slice()[self.sends.len()..]
    }

    // The messages of the standing events.
    pub(super) fn standing_ones(&self) -> &[Message]
        ensures { result.now ≡ standing_of (queues_of self.now) }
    {
        &self.messages.as_slice()[..self.sends.len()]
    }

    // How many events stand.
    pub(super) fn standing(&self) -> usize
        ensures { result ≡ length (queues_of self.now).standing }
    {
        self.sends.len()
    }

    // The first open message.
    pub(crate) fn next(&self) -> Option<Message>
        ensures { result ≡ first_message (queues_of self.now).open_ones }
    {
        self.open_ones().first().copied()
    }

    // The first standing message.
    pub(crate) fn front(&self) -> Option<Message>
        ensures { result ≡ front_of (queues_of self.now) }
    {
        self.standing_ones().first().copied()
    }

    // How many messages the committed and the standing events sent.
    pub(crate) fn issued(&self) -> u64
        ensures { result ≡ issued (queues_of self.now) }
    {
        // `From` does not go from usize to u64
        u64::from(self.sent) + self.outputs.len() as u64
    }

    // Whether there is no place left.
    pub(super) fn is_full(&self) -> bool
        ensures { result ≡ nat_le 32 (room (queues_of self.now)) }
    {
        self.messages.len() + self.early.len() >= 32
    }

    // How many messages the first standing events sent.
    pub(super) fn sent_by(&self, stay: usize) -> usize
        ensures { result ≡ length (sends_of (take stay (queues_of self.now).standing)) }
    {
        let sends = self.sends.as_slice();
        // where all stay, nothing is summed
        if stay < sends.len() {
            total(&sends[..stay])
        } else {
            self.outputs.len()
        }
    }

    // What the standing events from a place on sent.
    pub(crate) fn sends_from(&self, stay: usize) -> &[Sent]
        ensures { messages_of result.now ≡ sends_of (drop stay (queues_of self.now).standing) }
    {
        &self.outputs.as_slice()[self.sent_by(stay)..]
    }
}

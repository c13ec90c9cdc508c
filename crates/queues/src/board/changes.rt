// The single changes that an arrival makes.
ghost use Rattle.std.specs.Prelude.{◌≡◌, ◌<◌};
ghost use Rattle.rows.specs.Rows.{insert, without_one};
ghost use Rattle.bus.specs.Order.{message_before};
ghost use Rattle.model.specs.Deliver.{undo, with_open, with_early, room};
ghost use Rattle.queues.specs.Entries.{queues_of};

use super::BoardQueues;
use crate::held::find;
use bus::Message;

impl BoardQueues {
    // The standing events from a place on are open again, and what they sent leaves the out-row.
    pub(super) fn roll_back(&mut self, stay: usize)
        ensures { queues_of self.new ≡ undo stay (queues_of self.old) }
    {
        let kept = self.sent_by(stay);
        self.outputs.cut(kept);
        self.sends.cut(stay);
    }

    // One more open message.
    pub(super) fn open(&mut self, message: Message)
        requires { room (queues_of self.old) < 32 }
        ensures { queues_of self.new ≡ with_open (insert message_before message (queues_of self.old).open_ones) (queues_of self.old) }
    {
        let standing = self.standing();
        // it has room, as the contract asks
        let _ = self.messages.put_from(standing, message);
    }

    // One open message less.
    pub(super) fn withdraw(&mut self, message: &Message)
        ensures { queues_of self.new ≡ with_open (without_one message_before message.now (queues_of self.old).open_ones) (queues_of self.old) }
    {
        if let Some(at) = find(self.open_ones(), message) {
            let standing = self.standing();
            self.messages.remove(standing + at);
        }
    }

    // One more early anti-message.
    pub(super) fn hold(&mut self, message: Message)
        requires { room (queues_of self.old) < 32 }
        ensures { queues_of self.new ≡ with_early (insert message_before message (queues_of self.old).early) (queues_of self.old) }
    {
        // it has room, as the contract asks
        let _ = self.early.put_from(0, message);
    }

    // One early anti-message less.
    pub(super) fn release(&mut self, message: &Message)
        ensures { queues_of self.new ≡ with_early (without_one message_before message.now (queues_of self.old).early) (queues_of self.old) }
    {
        if let Some(at) = find(self.early.as_slice(), message) {
            self.early.remove(at);
        }
    }
}

// What a reaction does to a board's queues.
ghost use Rattle.std.specs.Prelude.{◌≡◌};
ghost use Rattle.bus.specs.Reactions.{listed};
ghost use Rattle.queues.specs.Entries.{queues_of, first_stands};

use super::BoardQueues;
use crate::notes::note_sent;
use addressing::Batch;

impl BoardQueues {
    // The first open message stands, with what it sent. Where none is open, nothing changes.
    pub fn stand(&mut self, out: &Batch)
        ensures { queues_of self.new ≡ first_stands (listed out.now) (queues_of self.old) }
    {
        if let Some(cause) = self.next() {
            note_sent(&mut self.outputs, cause, out);
            // at most two: no `try_from`, which could give up
            self.sends.push(out.len() as u8);
        }
    }
}

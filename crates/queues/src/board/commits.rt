// What a commit does to a board's queues.
ghost use Rattle.std.specs.Prelude.{◌≡◌, ◌^◌, ◌<◌};
ghost use Rattle.model.specs.State.{issued};
ghost use Rattle.model.specs.Commit.{shed};
ghost use Rattle.queues.specs.Entries.{queues_of};

use super::BoardQueues;

impl BoardQueues {
    // The first standing event is committed: it leaves the in-row, and what it sent the out-row.
    pub fn shed(&mut self)
        ensures { issued (queues_of self.old) < 2 ^ 32 → queues_of self.new ≡ shed 1 (queues_of self.old) }
    {
        if let Some(gone) = self.sends.as_slice().first().copied() {
            self.messages.shed(1);
            self.sends.shed(1);
            self.outputs.shed(usize::from(gone));
            self.sent = self.sent.saturating_add(u32::from(gone));
        }
    }
}

// The least message that is outstanding at a board.
ghost use Rattle.std.specs.Prelude.{◌≡◌};
ghost use Rattle.model.specs.Outlook.{open_and_early};
ghost use Rattle.queues.specs.Entries.{queues_of};
ghost use Rattle.queues.specs.Outlooks.{least_onto};

use super::BoardQueues;
use bus::Message;
use rows::lesser;

impl BoardQueues {
    // The least of the open messages, the early anti-messages and the rest.
    pub(crate) fn outlook(&self, rest: Option<Message>) -> Option<Message>
        ensures { result ≡ least_onto (open_and_early (queues_of self.now)) rest }
    {
        let early = rows::least(self.early.as_slice());
        let open = rows::least(self.open_ones());
        lesser(open, lesser(early, rest))
    }
}

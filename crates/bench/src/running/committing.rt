// Commit: the first final messages become lines of the log.
ghost use Rattle.std.specs.Prelude.{◌≡◌, ◌≤◌, length, drop};
ghost use Rattle.model.specs.Commit.{is_final};
ghost use Rattle.model.specs.Law.{Reached};
ghost use Rattle.model.specs.Lines.{next_line, after_line};
ghost use Rattle.bench.specs.Benches.{setting_of, state_of};
ghost use Rattle.bench.specs.Logs.{message_of, commit_into};

use super::Running;
use bus::Message;
use racks::Rack;
use rows::TotalOrder;

// Whether nothing outstanding can come before a message.
fn is_final(outlook: Option<Message>, message: &Message) -> bool
    ensures { result ≡ is_final outlook message.now }
{
    outlook.is_none_or(|first| message.before(&first))
}

impl<R: Rack> Running<R> {
    // Commits the next line, if it is final.
    #[tactic(auto, using(crate::proofs::Standing::front_inside))]
    fn commit_one(&mut self, outlook: Option<Message>) -> Option<Message>
        ensures answers_the_next_line { result ≡ message_of (next_line outlook (state_of self.old)) }
        ensures takes_the_next_line { state_of self.new ≡ after_line (state_of self.old) (next_line outlook (state_of self.old)) }
        ensures keeps_the_setting { setting_of self.new ≡ setting_of self.old }
    {
        let front = self.table.soonest()?;
        if !is_final(outlook, &front.message) {
            return None;
        }
        let place = front.board;
        self.table.entries[place].shed();
        // its saver holds the words after every standing event, so it has one to forget
        // (the place is below eight: no `try_from`, which could give up)
        let _ = self.rack.forget(place as u8, 1);
        self.committed += 1;
        self.last = Some(front.message);
        Some(front.message)
    }

    // Writes the final lines to the front of the log, the least first, as many as it holds, and answers how many.
    pub fn commit(&mut self, log: &mut [Message]) -> usize
        ensures does_what_the_rule_says { (Reached (setting_of self.old) (state_of self.old) → (state_of self.new, result, log.new) ≡ commit_into log.old (state_of self.old)) }
        ensures writes_within_the_log { result ≤ length log.old }
        ensures leaves_the_rest_of_the_log { drop result log.new ≡ drop result log.old }
        ensures keeps_the_setting { setting_of self.new ≡ setting_of self.old }
    {
        let outlook = self.outlook();
        for (i, place) in log.iter_mut().enumerate() {
            match self.commit_one(outlook) {
                Some(line) => *place = line,
                None => return i,
            }
        }
        log.len()
    }
}

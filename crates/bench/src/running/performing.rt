// Perform: one call, whichever it is.
ghost use Rattle.std.specs.Prelude.{◌≡◌};
ghost use Rattle.model.specs.Law.{Reached};
ghost use Rattle.bench.specs.Benches.{setting_of, state_of};
ghost use Rattle.bench.specs.Logs.{perform_into};

use super::Running;
use bus::Message;
use model::{Call, Outcome};
use racks::Rack;

impl<R: Rack> Running<R> {
    // Does what the call asks; a commit writes its lines to the front of the log, and no more than it holds.
    pub fn perform(&mut self, call: &Call, log: &mut [Message]) -> Outcome
        ensures does_what_the_rule_says { (Reached (setting_of self.old) (state_of self.old) → (state_of self.new, result, log.new) ≡ perform_into log.old (setting_of self.old) (state_of self.old) call.now) }
        ensures keeps_the_setting { setting_of self.new ≡ setting_of self.old }
    {
        match *call {
            Call::Offer {
                time,
                destination,
                kind,
                payload,
            } => {
                self.offer(time, destination, kind, payload)
                    .map_or_else(Outcome::Refused, Outcome::Offered)
            }
            Call::Deliver { index } => {
                self.deliver(index)
                    .map_or_else(Outcome::Refused, Outcome::Delivered)
            }
            Call::Run { board } => { self.run(board).map_or_else(Outcome::Refused, Outcome::Ran) }
            Call::Outlook => Outcome::Looked(self.outlook()),
            Call::Commit { most } => {
                let fitting = most.min(log.len());
                Outcome::Committed(self.commit(&mut log[..fitting]))
            }
        }
    }
}

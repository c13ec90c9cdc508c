// Outlook: the least message outstanding.
ghost use Rattle.std.specs.Prelude.{◌≡◌};
ghost use Rattle.model.specs.Outlook.{outlook};
ghost use Rattle.bench.specs.Benches.{state_of};

use super::Running;
use bus::Message;
use racks::Rack;

impl<R: Rack> Running<R> {
    // The least message that is open, early or in transit, if there is any.
    pub fn outlook(&self) -> Option<Message>
        ensures { result ≡ outlook (state_of self.now) }
    {
        self.table.outlook(self.transit.least())
    }
}

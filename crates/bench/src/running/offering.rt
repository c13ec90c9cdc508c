// Offer: a stimulus joins transit.
ghost use Rattle.std.specs.Prelude.{◌≡◌};
ghost use Rattle.model.specs.Offer.{offer, line_time};
ghost use Rattle.bench.specs.Benches.{setting_of, state_of, offered_or};

use super::{Running, TRANSIT_PLACES};
use addressing::Batch;
use bus::{Message, OUTSIDE};
use model::Refusal;
use racks::Rack;

// How many offers a bench admits.
const MOST_OFFERS: u32 = 65_536;

// The time of the last committed line, or 0.
fn line_time(last: Option<Message>) -> u32
    ensures { result ≡ line_time last }
{
    last.map_or(0, |line| line.time)
}

impl<R: Rack> Running<R> {
    // Admits a message from outside, and answers its number.
    pub fn offer(
        &mut self,
        time: u32,
        destination: u8,
        kind: u8,
        payload: u32,
    ) -> Result<u32, Refusal>
        ensures does_what_the_rule_says { (state_of self.new, offered_or result) ≡ offer (setting_of self.old) (state_of self.old) time destination kind payload }
        ensures keeps_the_setting { setting_of self.new ≡ setting_of self.old }
    {
        if destination >= R::boards() {
            return Err(Refusal::NoBoard);
        }
        if time > self.end {
            return Err(Refusal::PastEnd);
        }
        if time < line_time(self.last) {
            return Err(Refusal::BeforeLastLine);
        }
        if self.offers >= MOST_OFFERS {
            return Err(Refusal::OffersSpent);
        }
        if self.transit.len() >= TRANSIT_PLACES {
            return Err(Refusal::TransitFull);
        }
        let number = self.offers;
        let stimulus = Message {
            time,
            source: OUTSIDE,
            number,
            destination,
            kind,
            payload,
        };
        self.transit.send(&Batch::One(stimulus));
        self.offers += 1;
        Ok(number)
    }
}

// What arrivals do to a board's queues.
ghost use Rattle.std.specs.Prelude.{◌≡◌, ◌<◌, true};
ghost use Rattle.model.specs.Deliver.{not_after, room, arrive};
ghost use Rattle.queues.specs.Entries.{queues_of};
ghost use Rattle.queues.specs.Arrivals.{effect_of, plan_of, arrived};

use super::BoardQueues;
use crate::effect::Effect;
use crate::held::holds;
use crate::plan::Plan;
use bus::Message;
use model::Item;

impl BoardQueues {
    // How many standing messages are not after this one.
    fn place(&self, message: &Message) -> usize
        ensures { result ≡ not_after message.now (queues_of self.now).standing }
    {
        let standing = self.standing_ones();
        rows::place(standing, standing.len(), message)
    }

    // What an arrival does.
    fn effect(&self, item: &Item) -> Effect
        ensures { result ≡ effect_of item.now (queues_of self.now) }
    {
        match item {
            Item::Plus(message) => {
                if holds(self.early.as_slice(), message) {
                    Effect::MeetsEarly
                } else {
                    Effect::Opens(self.place(message))
                }
            }
            Item::Minus(message) => {
                if holds(self.open_ones(), message) {
                    Effect::Withdraws
                } else if holds(self.standing_ones(), message) {
                    Effect::Undoes(self.place(message).saturating_sub(1))
                } else {
                    Effect::Waits
                }
            }
        }
    }

    // What an arrival asks of the bench.
    pub(crate) fn plan(&self, item: &Item) -> Plan
        ensures { result ≡ plan_of item.now (queues_of self.now) }
    {
        let effect = self.effect(item);
        let standing = self.standing();
        let stay = effect.stay(standing);
        let full = self.is_full();
        Plan {
            stay,
            full: effect.needs_place() && full,
            recalled: self.outputs.len() - self.sent_by(stay),
            undone: standing - stay,
        }
    }

    // An arrival that has a place, if it needs one.
    fn accept(&mut self, item: &Item)
        requires { (arrive item.now (queues_of self.old)).needs_place ≡ true → room (queues_of self.old) < 32 }
        ensures { queues_of self.new ≡ (arrive item.now (queues_of self.old)).queues }
    {
        let message = item.message();
        match self.effect(item) {
            Effect::MeetsEarly => self.release(&message),
            Effect::Opens(stay) => {
                self.roll_back(stay);
                self.open(message);
            }
            Effect::Withdraws => self.withdraw(&message),
            Effect::Undoes(stay) => {
                self.roll_back(stay);
                self.withdraw(&message);
            }
            Effect::Waits => self.hold(message),
        }
    }

    // An arrival. Where it needs a place and there is none, nothing changes.
    pub fn arrive(&mut self, item: &Item)
        ensures { queues_of self.new ≡ arrived item.now (queues_of self.old) }
    {
        if !self.plan(item).full {
            self.accept(item);
        }
    }
}

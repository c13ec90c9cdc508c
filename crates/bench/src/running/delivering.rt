// Deliver: an item in transit goes to its destination, where it may undo events (a rollback).
ghost use Rattle.std.specs.Prelude.{◌≡◌};
ghost use Rattle.model.specs.Deliver.{deliver};
ghost use Rattle.bench.specs.Benches.{setting_of, state_of, delivered_or};

use super::{MOST_BOARDS, Running, TRANSIT_PLACES};
use model::Refusal;
use racks::Rack;

impl<R: Rack> Running<R> {
    // Delivers the item in transit with this index, the oldest being 0, and answers how many events were undone.
    pub fn deliver(&mut self, index: usize) -> Result<usize, Refusal>
        ensures does_what_the_rule_says { (state_of self.new, delivered_or result) ≡ deliver (state_of self.old) index }
        ensures keeps_the_setting { setting_of self.new ≡ setting_of self.old }
    {
        let item = self.transit.get(index).ok_or(Refusal::NoItem)?;
        let board = item.message().destination;
        let place = usize::from(board);
        let plan = self.table.plan(place, &item);
        if plan.full {
            return Err(Refusal::BoardFull);
        }
        if self.transit.len() - 1 + plan.recalled > TRANSIT_PLACES {
            return Err(Refusal::TransitFull);
        }
        // nothing is refused from here on
        self.transit.remove(index);
        let recalled = self.table.sends_from(place, plan.stay);
        self.transit.recall(recalled);
        // its saver holds the words after every standing event, so it has those that stay
        let _ = self.rack.back(board, plan.stay);
        // no more than the runs: no `try_from`, which could give up
        self.undone += plan.undone as u32;
        // no `get_mut`: the proof has no name for what it lends out of the table
        if place < MOST_BOARDS {
            self.table.entries[place].arrive(&item);
        }
        Ok(plan.undone)
    }
}

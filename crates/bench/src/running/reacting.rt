// Run: a board reacts to its first open message, ahead of the others.
ghost use Rattle.std.specs.Prelude.{◌≡◌};
ghost use Rattle.model.specs.Law.{Reached};
ghost use Rattle.model.specs.Run.{run};
ghost use Rattle.bench.specs.Benches.{setting_of, state_of, ran_or};

use super::{MOST_RUNS, Running, TRANSIT_PLACES};
use addressing::Origin;
use model::Refusal;
use racks::Rack;

// How many items in transit leave places for the two messages that a reaction may send.
const TRANSIT_WITH_TWO_FREE: usize = TRANSIT_PLACES - 2;

impl<R: Rack> Running<R> {
    // Lets a board react, and answers how many messages it sent.
    pub fn run(&mut self, board: u8) -> Result<usize, Refusal>
        ensures does_what_the_rule_says { (Reached (setting_of self.old) (state_of self.old) → (state_of self.new, ran_or result) ≡ run (setting_of self.old) (state_of self.old) board) }
        ensures keeps_the_setting { setting_of self.new ≡ setting_of self.old }
    {
        let boards = R::boards();
        if board >= boards {
            return Err(Refusal::NoBoard);
        }
        let place = usize::from(board);
        let message = self.table.next(place).ok_or(Refusal::NothingOpen)?;
        if self.runs >= MOST_RUNS {
            return Err(Refusal::RunsSpent);
        }
        if self.transit.len() > TRANSIT_WITH_TWO_FREE {
            return Err(Refusal::TransitFull);
        }
        let Ok(sends) = self.rack.take(board, &message) else {
            // on a bench that calls lead to, a saver has room for every open message, so this is never reached
            return Err(Refusal::NothingOpen);
        };
        // at most two for each run: no `try_from`, which could give up
        let number = self.table.issued(place) as u32;
        let origin = Origin {
            boards,
            end: self.end,
            source: board,
            time: message.time,
        };
        let out = origin.messages(number, &sends);
        self.table.entries[place].stand(&out);
        self.transit.send(&out);
        self.runs += 1;
        Ok(out.len())
    }
}

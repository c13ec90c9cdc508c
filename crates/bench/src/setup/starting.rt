// Setting up a bench, and starting it.
ghost use Rattle.std.specs.Prelude.{◌≡◌, min, length, replicate, slice_set};
ghost use Rattle.bus.specs.Reactions.{zeros};
ghost use Rattle.addressing.specs.Settings.{boards_of};
ghost use Rattle.model.specs.Law.{Reached};
ghost use Rattle.model.specs.State.{started};
ghost use Rattle.bench.specs.Benches.{bench_of, setting_of, state_of};
ghost use Rattle.bench.specs.Setups.{start_of, first_rows, only_for_a_board};

use super::Setup;
use crate::running::Running;
use bus::{Words, ZEROS};
use model::Refusal;
use racks::Rack;

impl<R: Rack> Setup<R> {
    // Every board starts with zeros.
    pub fn new(rack: R, end: u32) -> Setup<R>
        ensures every_board_starts_with_zeros { start_of result ≡ record { setting = record { rules = R.Rack.rules; end = end }; words = replicate (min (length R.Rack.rules) 8) zeros; rows = R.Rack.rows rack } }
        ensures rack_is_the_given_one { result.rack ≡ rack }
    {
        Setup {
            rack,
            end,
            starts: [ZEROS; 8],
        }
    }

    // Gives a board other words to start with.
    pub fn start_words(&mut self, board: u8, words: Words) -> Result<(), Refusal>
        ensures board_starts_with_the_words { let before = start_of self.old in
            start_of self.new ≡ record { setting = before.setting; words = slice_set before.words board words; rows = before.rows } }
        ensures refuses_where_no_board_is { result ≡ only_for_a_board (boards_of (start_of self.old).setting) board }
        ensures rack_stays { self.new.rack ≡ self.old.rack }
    {
        if board >= R::boards() {
            return Err(Refusal::NoBoard);
        }
        self.starts[usize::from(board)] = words;
        Ok(())
    }

    // Starts the bench: each board's saver begins with the board's start words, and nothing has happened yet.
    pub fn start(self) -> Running<R>
        ensures savers_begin_with_the_start_words { let before = start_of self in
            bench_of result ≡ record { setting = before.setting; state = started (first_rows before) } }
        ensures bench_is_reached { Reached (setting_of result) (state_of result) }
    {
        let Setup {
            mut rack,
            end,
            starts,
        } = self;
        rack.begin_all(&starts);
        Running::fresh(rack, end)
    }
}

// A saver that keeps a checkpoint at every fourth quadruple of words, and reaches the others by reacting again.
ghost use Rattle.std.specs.Prelude.{◌≡◌, ◌+◌, ◌/◌, ◌<◌, ◌≤◌, [], ◌∷◌, length};
ghost use Rattle.rows.specs.Held.{held};
ghost use Rattle.savers.specs.Rows.{capacity, newest};
ghost use Rattle.savers.specs.Replays.{step, replayed};
ghost use Rattle.std.proofs.Common.{arith};
ghost use Rattle.savers.specs.ReplaysLemmas.{replayed_long};

use super::refusal::Refusal;
use super::saver::{CAPACITY, Saver};
use boards::Board;
use bus::{BLANK, Message, Sends, Words};
use rows::Row;

// A checkpoint stands at every fourth place.
const STEP: usize = 4;

const CHECKPOINTS: usize = CAPACITY / STEP + 1;

const MESSAGES: usize = CAPACITY + STEP - 1;

// Entry i of the row is place first + i here: the words of the last checkpoint at or before that place, after the messages since.
// The board only reacts: between calls its own words mean nothing.
#[derive(Drop)]
pub struct Checkpoints<B: Board> {
    board: B,
    checkpoints: Row<Words, CHECKPOINTS>,
    messages: Row<Message, MESSAGES>,
    first: usize,
    ghost low: { first < step },
    ghost started: { first ≤ length (held messages) },
    ghost within: { length (held messages) ≤ first + capacity },
    ghost counted: { length (held checkpoints) ≡ length (held messages) / step + 1 },
}

impl<B: Board> Checkpoints<B> {
    // A saver whose start is the board's words.
    pub fn new(board: B) -> Self
        ensures { replayed B.Board.rule (held result.checkpoints) (held result.messages) result.first ≡ B.Board.state board ∷ [] }
    {
        let mut checkpoints = Row::empty(board.words());
        checkpoints.push(board.words());
        Checkpoints {
            board,
            checkpoints,
            messages: Row::over([BLANK; MESSAGES]),
            first: 0,
        }
    }

    // A board with the last words. What it sends on the way goes nowhere.
    fn reach(&self) -> B
        ensures { B.Board.state result ≡ newest (replayed B.Board.rule (held self.now.checkpoints) (held self.now.messages) self.now.first) }
    {
        let mut board = self.board;
        let checkpoint = self.checkpoints.len() - 1;
        board.load(self.checkpoints.as_slice()[checkpoint]);
        for message in &self.messages.as_slice()[checkpoint * STEP..] {
            let _ = board.react(message);
        }
        board
    }
}

impl<B: Board> Saver for Checkpoints<B> {
    ghost rule = { B.Board.rule };

    ghost row = { λ s. replayed B.Board.rule (held s.checkpoints) (held s.messages) s.first };

    ghost begun = { λ s. omega (arith, replayed_long B.Board.rule (held s.checkpoints) (held s.messages) s.first) };

    ghost bounded = { λ s. omega (arith, replayed_long B.Board.rule (held s.checkpoints) (held s.messages) s.first, s.within) };

    fn begin(&mut self, start: Words) {
        self.checkpoints.cut(0);
        self.checkpoints.push(start);
        self.messages.cut(0);
        self.first = 0;
    }

    fn take(&mut self, message: &Message) -> Result<Sends, Refusal> {
        if self.held() >= CAPACITY {
            return Err(Refusal::Full);
        }
        let mut board = self.reach();
        let sends = board.react(message);
        self.messages.push(*message);
        if self.messages.len() % STEP == 0 {
            self.checkpoints.push(board.words());
        }
        Ok(sends)
    }

    fn back(&mut self, n: usize) -> Result<(), Refusal> {
        if n > self.held() {
            return Err(Refusal::TooFew);
        }
        let place = self.first + n;
        self.messages.cut(place);
        self.checkpoints.cut(place / STEP + 1);
        Ok(())
    }

    fn forget(&mut self, n: usize) -> Result<(), Refusal> {
        if n > self.held() {
            return Err(Refusal::TooFew);
        }
        let place = self.first + n;
        let gone = place / STEP;
        self.messages.shed(gone * STEP);
        self.checkpoints.shed(gone);
        self.first = place % STEP;
        Ok(())
    }

    fn words(&self) -> Words {
        self.reach().words()
    }

    fn held(&self) -> usize {
        self.messages.len() - self.first
    }
}

// A saver that keeps a full copy of every quadruple of words in its row.
ghost use Rattle.std.specs.Prelude.{◌≡◌, ◌≤◌, [], ◌∷◌, length};
ghost use Rattle.rows.specs.Held.{held};
ghost use Rattle.rows.proofs.Within.{held_within};

use super::refusal::Refusal;
use super::saver::{CAPACITY, Saver};
use boards::Board;
use bus::{Message, Sends, Words};
use rows::Row;

const COPIES: usize = CAPACITY + 1;

// The copies are the row: the start's, and those after each message. The board only reacts: between calls its own words mean nothing.
#[derive(Drop)]
pub struct FullCopies<B: Board> {
    board: B,
    copies: Row<Words, COPIES>,
    ghost started: { 1 ≤ length (held copies) },
}

impl<B: Board> FullCopies<B> {
    // A saver whose start is the board's words.
    pub fn new(board: B) -> Self
        ensures { held result.copies ≡ B.Board.state board ∷ [] }
    {
        let mut copies = Row::empty(board.words());
        copies.push(board.words());
        FullCopies { board, copies }
    }
}

impl<B: Board> Saver for FullCopies<B> {
    ghost rule = { B.Board.rule };

    ghost row = { λ s. held s.copies };

    ghost begun = { λ s. s.started };

    ghost bounded = { λ s. held_within s.copies };

    fn begin(&mut self, start: Words) {
        self.copies.cut(0);
        self.copies.push(start);
    }

    fn take(&mut self, message: &Message) -> Result<Sends, Refusal> {
        if self.held() >= CAPACITY {
            return Err(Refusal::Full);
        }
        let words = self.words();
        self.board.load(words);
        let sends = self.board.react(message);
        let words = self.board.words();
        self.copies.push(words);
        Ok(sends)
    }

    fn back(&mut self, n: usize) -> Result<(), Refusal> {
        if n > self.held() {
            return Err(Refusal::TooFew);
        }
        self.copies.cut(n + 1);
        Ok(())
    }

    fn forget(&mut self, n: usize) -> Result<(), Refusal> {
        if n > self.held() {
            return Err(Refusal::TooFew);
        }
        self.copies.shed(n);
        Ok(())
    }

    fn words(&self) -> Words {
        self.copies.as_slice()[self.held()]
    }

    fn held(&self) -> usize {
        self.copies.len() - 1
    }
}

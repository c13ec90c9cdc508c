// Two racks side by side, the left one's addresses first.
ghost use Rattle.std.specs.Prelude.{◌++◌, length};
ghost use Rattle.racks.specs.Sides.{Sided};
ghost use Rattle.racks.specs.SidesLemmas.{levels, both_sized};

use super::rack::Rack;
use super::refusal::Refusal;
use bus::{Message, Sends, Words};

#[derive(Drop)]
pub struct Pair<L: Rack, R: Rack> {
    pub left: L,
    pub right: R,
}

// Where a pair has an address: on which side, and under which address there.
enum Side {
    Left(u8),
    Right(u8),
}

fn side_of<L: Rack>(address: u8) -> Side
    ensures { Sided (length L.Rack.rules) address result }
{
    let split = L::count();
    let place = u16::from(address);
    if place < split {
        Side::Left(address)
    } else {
        // no more than the address: no `try_from`, which could give up
        Side::Right((place - split) as u8)
    }
}

// Each call goes to its side: the sides have two types, so one function over closures would take two closures a call.
impl<L: Rack, R: Rack> Rack for Pair<L, R> {
    ghost rules = { L.Rack.rules ++ R.Rack.rules };

    ghost rows = { λ s. L.Rack.rows s.left ++ R.Rack.rows s.right };

    ghost level = { λ s. levels _ _ _ _ (L.Rack.level s.left) (R.Rack.level s.right) };

    ghost sized = { λ s. both_sized _ _ (L.Rack.sized s.left) (R.Rack.sized s.right) };

    fn count() -> u16 {
        (L::count() + R::count()).min(256)
    }

    fn begin(&mut self, address: u8, start: Words) -> Result<(), Refusal> {
        match side_of::<L>(address) {
            Side::Left(k) => self.left.begin(k, start),
            Side::Right(k) => self.right.begin(k, start),
        }
    }

    fn take(&mut self, address: u8, message: &Message) -> Result<Sends, Refusal> {
        match side_of::<L>(address) {
            Side::Left(k) => self.left.take(k, message),
            Side::Right(k) => self.right.take(k, message),
        }
    }

    fn back(&mut self, address: u8, n: usize) -> Result<(), Refusal> {
        match side_of::<L>(address) {
            Side::Left(k) => self.left.back(k, n),
            Side::Right(k) => self.right.back(k, n),
        }
    }

    fn forget(&mut self, address: u8, n: usize) -> Result<(), Refusal> {
        match side_of::<L>(address) {
            Side::Left(k) => self.left.forget(k, n),
            Side::Right(k) => self.right.forget(k, n),
        }
    }

    fn words(&self, address: u8) -> Result<Words, Refusal> {
        match side_of::<L>(address) {
            Side::Left(k) => self.left.words(k),
            Side::Right(k) => self.right.words(k),
        }
    }

    fn held(&self, address: u8) -> Result<usize, Refusal> {
        match side_of::<L>(address) {
            Side::Left(k) => self.left.held(k),
            Side::Right(k) => self.right.held(k),
        }
    }
}

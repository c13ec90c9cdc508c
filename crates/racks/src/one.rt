// A rack of one saver, at address 0.
ghost use Rattle.std.specs.Prelude.{[], ◌∷◌};
ghost use Rattle.racks.specs.SidesLemmas.{one_sized};
ghost use Rattle.std.proofs.Common.{rules};

use super::rack::Rack;
use super::refusal::Refusal;
use bus::{Message, Sends, Words};
use savers::Saver;

#[derive(Drop)]
pub struct One<S: Saver> {
    pub saver: S,
}

// Each call asks for the address. A method that lends the saver out would need a clause of its own on what is lent,
// and a check of the address in front would be as long. `Ok(..?)`: the saver's refusal becomes the rack's.
impl<S: Saver> Rack for One<S> {
    ghost rules = { S.Saver.rule ∷ [] };

    ghost rows = { λ s. S.Saver.row s.saver ∷ [] };

    ghost level = { Prim.search rules };

    ghost sized = { λ s. one_sized _ (S.Saver.begun s.saver) (S.Saver.bounded s.saver) };

    fn count() -> u16 {
        1
    }

    fn begin(&mut self, address: u8, start: Words) -> Result<(), Refusal> {
        match address {
            0 => {
                self.saver.begin(start);
                Ok(())
            }
            _ => Err(Refusal::NoBoard),
        }
    }

    fn take(&mut self, address: u8, message: &Message) -> Result<Sends, Refusal> {
        match address {
            0 => Ok(self.saver.take(message)?),
            _ => Err(Refusal::NoBoard),
        }
    }

    fn back(&mut self, address: u8, n: usize) -> Result<(), Refusal> {
        match address {
            0 => Ok(self.saver.back(n)?),
            _ => Err(Refusal::NoBoard),
        }
    }

    fn forget(&mut self, address: u8, n: usize) -> Result<(), Refusal> {
        match address {
            0 => Ok(self.saver.forget(n)?),
            _ => Err(Refusal::NoBoard),
        }
    }

    fn words(&self, address: u8) -> Result<Words, Refusal> {
        match address {
            0 => Ok(self.saver.words()),
            _ => Err(Refusal::NoBoard),
        }
    }

    fn held(&self, address: u8) -> Result<usize, Refusal> {
        match address {
            0 => Ok(self.saver.held()),
            _ => Err(Refusal::NoBoard),
        }
    }
}

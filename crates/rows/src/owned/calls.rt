// What a row that owns its memory is asked.
ghost use Rattle.std.specs.Prelude.{◌≡◌, cond, [], ◌∷◌, ◌++◌, length, take, drop, nat_lt, Ok, Err};
ghost use Rattle.rows.specs.declared.refusal.Refusal.TheVariants.{Full};
ghost use Rattle.rows.specs.Rows.{insert, without};
ghost use Rattle.rows.specs.Held.{held};

use super::Row;
use crate::change;
use crate::order::TotalOrder;
use crate::refusal::Refusal;

impl<T: Copy, const N: usize> Row<T, N> {
    // A row of no records. What stands in unused places means nothing.
    pub fn empty(unused: T) -> Self
        ensures { held result ≡ [] }
    {
        Row::over([unused; N])
    }

    // A row of no records over a memory: a constant one costs nothing to make, where `empty` writes every place.
    pub fn over(memory: [T; N]) -> Self
        ensures { held result ≡ [] }
    {
        Row { memory, count: 0 }
    }

    // The records.
    pub fn as_slice(&self) -> &[T]
        ensures { result.now ≡ held self.now }
    {
        &self.memory[..self.count]
    }

    // How many records there are.
    pub fn len(&self) -> usize
        ensures { result ≡ length (held self.now) }
    {
        self.as_slice().len()
    }

    // Puts a record behind the others. Where the row is full, nothing changes.
    pub fn push(&mut self, item: T)
        ensures { held self.new ≡ take N (held self.old ++ item ∷ []) }
    {
        if self.count < N {
            self.memory[self.count] = item;
            self.count += 1;
        }
    }

    // Drops every record from a place on: nothing, where the row ends before it.
    pub fn cut(&mut self, place: usize)
        ensures { held self.new ≡ take place (held self.old) }
    {
        self.count = change::cut(&self.memory, self.count, place);
    }

    // Drops the first records: all, where the row has no more than these.
    pub fn shed(&mut self, gone: usize)
        ensures { held self.new ≡ drop gone (held self.old) }
    {
        self.count = change::shed(&mut self.memory, self.count, gone);
    }

    // Drops the record at a place: nothing, where the row ends before it.
    pub fn remove(&mut self, place: usize)
        ensures { held self.new ≡ without place (held self.old) }
    {
        self.count = change::remove(&mut self.memory, self.count, place);
    }
}

impl<T: TotalOrder, const N: usize> Row<T, N> {
    // Places a record among those from a place on, before the first greater one. Where the row is full it refuses, and nothing changes.
    pub fn put_from(&mut self, from: usize, item: T) -> Result<(), Refusal>
        ensures answer { result ≡ cond (nat_lt (length (held self.old)) N) (Ok tt) (Err Full) }
        ensures after { held self.new ≡ cond (nat_lt (length (held self.old)) N) (take from (held self.old) ++ insert T.earlier item (drop from (held self.old))) (held self.old) }
    {
        let from = from.min(self.count);
        let behind = self.count - from;
        let memory = &mut self.memory[..];
        self.count = from + change::put(&mut memory[from..], behind, item)?;
        Ok(())
    }
}

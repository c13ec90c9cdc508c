// What joins transit, what leaves it, and what is read of it.
ghost use Rattle.std.specs.Prelude.{◌≡◌, [], ◌∷◌, ◌++◌, map, length, take};
ghost use Rattle.rows.specs.Rows.{least, without};
ghost use Rattle.bus.specs.Order.{message_before};
ghost use Rattle.bus.specs.Reactions.{listed};
ghost use Rattle.model.specs.declared.item.Item.TheVariants.{Plus, Minus};
ghost use Rattle.model.specs.State.{inside};
ghost use Rattle.queues.specs.Transits.{on_way, item_at};
ghost use Rattle.queues.specs.Memory.{messages_of};

use super::Transit;
use addressing::Batch;
use bus::{BLANK, Message, Sent};
use model::Item;
use rows::{Row, lesser};

impl Transit {
    // Nothing is in transit.
    pub fn empty() -> Transit
        ensures { on_way result ≡ [] }
    {
        Transit {
            items: Row::over([Item::Plus(BLANK); 128]),
        }
    }

    pub fn len(&self) -> usize
        ensures { result ≡ length (on_way self.now) }
    {
        self.items.len()
    }

    pub fn get(&self, index: usize) -> Option<Item>
        ensures { result ≡ item_at (on_way self.now) index }
    {
        self.items.as_slice().get(index).copied()
    }

    // A batch of messages joins transit; what has no place is dropped. Like `note_sent`, which says why they are two.
    pub fn send(&mut self, out: &Batch)
        ensures { on_way self.new ≡ take 128 (on_way self.old ++ map Plus (listed out.now)) }
    {
        match *out {
            Batch::Nothing => {}
            Batch::One(message) => self.items.push(Item::Plus(message)),
            Batch::Two(first, second) => {
                self.items.push(Item::Plus(first));
                self.items.push(Item::Plus(second));
            }
        }
    }

    // Anti-messages of what was sent join transit; what has no place is dropped.
    pub fn recall(&mut self, sends: &[Sent])
        ensures { on_way self.new ≡ take 128 (on_way self.old ++ map Minus (messages_of sends.now)) }
    {
        for sent in sends {
            self.items.push(Item::Minus(sent.message));
        }
    }

    // An item leaves transit, and those behind it move up. Where there is no such item, nothing changes.
    pub fn remove(&mut self, index: usize)
        ensures { on_way self.new ≡ without index (on_way self.old) }
    {
        self.items.remove(index);
    }

    // The least message in transit, of either sign.
    pub fn least(&self) -> Option<Message>
        ensures { result ≡ least message_before (map inside (on_way self.now)) }
    {
        self.items
            .as_slice()
            .iter()
            .rfold(None, |best, item| lesser(Some(item.message()), best))
    }
}

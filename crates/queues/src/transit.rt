// What is in transit: messages and anti-messages, the oldest first.
use model::Item;
use rows::Row;

mod calls;

#[derive(Drop)]
pub struct Transit {
    items: Row<Item, 128>,
}

// Ordered rows over lent memory, for every record that carries a total order.
//
// A row lies in front of a memory: it is the first `count` records of a slice. A count beyond the slice is cut to it.
// A `Row` owns such a memory and keeps the count.
#![tactic(auto)]

mod change;
mod front;
mod order;
mod owned;
mod refusal;
mod search;
mod shift;
#[cfg(test)]
mod tests;
mod theorems;

pub use change::{cut, put, remove, shed};
pub use front::row;
pub use order::TotalOrder;
pub use owned::Row;
pub use refusal::Refusal;
pub use search::{find, find_last, least, lesser, place};
pub use theorems::{
    found_place_holds_an_equal, insertion_adds_one_equal, insertion_keeps_order,
    last_equal_is_where_placed, least_comes_first, removal_takes_one_equal, shortening_keeps_order,
};

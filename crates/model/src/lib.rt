// The rules of the bench, and the law of runs: what each call does, over plain lists, and what every list of calls comes to.
#![tactic(auto)]

mod call;
mod front;
mod item;
mod outcome;
mod refusal;
mod theorems;

pub use call::Call;
pub use front::Front;
pub use item::Item;
pub use outcome::Outcome;
pub use refusal::Refusal;
pub use theorems::{
    an_equal_of_the_last_standing_message_becomes_open, committed_lines_are_the_sequential_log,
    reached_benches_keep_their_rows_in_order, reached_benches_stay_in_bounds,
};

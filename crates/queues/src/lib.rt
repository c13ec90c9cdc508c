// What waits at the boards and what is in transit, in memory of fixed size.
#![tactic(auto)]

mod board;
mod effect;
mod held;
mod notes;
mod plan;
mod sums;
mod table;
#[cfg(test)]
mod tests;
mod transit;

pub use board::BoardQueues;
pub use plan::Plan;
pub use table::Table;
pub use transit::Transit;

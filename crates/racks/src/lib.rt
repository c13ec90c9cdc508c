// Racks: savers side by side, each called by its address.
#![tactic(auto)]

mod one;
mod pair;
mod rack;
mod refusal;
#[cfg(test)]
mod tests;

pub use one::One;
pub use pair::Pair;
pub use rack::Rack;
pub use refusal::{Refusal, refusal_leaves_the_rows};

// Savers keep a board's words, so that messages that it took can be taken back.
#![tactic(auto)]

#[tactic(auto, using(crate::specs::ReplaysLemmas::lengths))]
mod checkpoints;
mod full_copies;
mod refusal;
mod saver;
#[cfg(test)]
mod tests;

pub use checkpoints::Checkpoints;
pub use full_copies::FullCopies;
pub use refusal::{Refusal, refusal_leaves_the_row};
pub use saver::{CAPACITY, Saver};

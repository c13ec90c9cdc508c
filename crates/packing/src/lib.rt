// Schedules that people can write: from the text that is listed of a schedule file back to the file's bytes.
#![tactic(auto)]

mod bytes;
mod error;
mod file;
mod laws;
mod line;
mod number;
mod show;
#[cfg(test)]
mod tests;

pub use error::{PackError, Why};
pub use file::pack;
pub use laws::a_text_is_refused_for_one_reason;

// The one-by-one machine: it takes one message after the other, always the least that is pending.
#![tactic(auto)]

mod advance;
mod cases;
mod laws;
mod machine;
mod outcome;
mod pending;
#[cfg(test)]
mod tests;

pub use cases::{first_three_lines, send_for_end_time_passes, send_past_end_time_is_dropped};
pub use laws::{
    each_line_has_a_cause, each_line_was_least, log_is_in_order, nothing_pending_is_the_end,
};
pub use machine::run;
pub use outcome::{Ended, Outcome};

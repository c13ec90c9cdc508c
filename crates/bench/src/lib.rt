// The bench: the boards of a rack run ahead of one another, roll back, and commit what is final, as its driver's calls say.
#![tactic(auto)]

mod closed;
mod driving;
mod running;
mod setup;

pub use closed::{Closed, Totals};
pub use driving::{Driven, drive};
pub use running::Running;
pub use setup::Setup;

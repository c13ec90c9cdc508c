// What the sends of a reaction become on the bus: addressed and numbered messages.
#![tactic(auto)]

mod origin;

use bus::{Message, UpToTwo};
pub use origin::Origin;

// The messages that one reaction sends: at most two.
pub type Batch = UpToTwo<Message>;

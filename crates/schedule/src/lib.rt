// Schedule files: the end time and the calls of one run of the bench, read from bytes in three layers.
#![tactic(auto)]

mod call;
mod cases;
mod file;
mod number;
mod show;

pub use call::{Call, CallFault, read_call};
pub use cases::{the_example_reads_as_its_calls, worked_files_have_their_faults};
pub use file::{EDITION, Fault, Layer, MOST_BYTES, ReadError, Refusal, Schedule, placed_at, read};
pub use number::{CutShort, LittleEndian, read_number};

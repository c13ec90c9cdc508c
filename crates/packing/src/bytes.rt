// The bytes of numbers and calls, as the layout of schedule files has them.
ghost use Rattle.std.specs.Prelude.{◌≡◌, ◌++◌, length, OnOk};
ghost use Rattle.schedule.specs.Layout.{bytes_of};

use schedule::Call;
use std::alloc::AllocError;

// A call: its letter, and its numbers.
pub(crate) fn push_call(bytes: &mut Vec<u8>, call: Call) -> Result<(), AllocError>
    ensures { OnOk result (bytes.new.items ≡ bytes.old.items ++ bytes_of call) }
{
    match call {
        Call::Offer {
            time,
            destination,
            kind,
            payload,
        } => {
            bytes.push(b'o')?;
            bytes.extend_from_slice(&time.to_le_bytes())?;
            bytes.extend_from_slice(&[destination, kind])?;
            bytes.extend_from_slice(&payload.to_le_bytes())
        }
        Call::Deliver { index } => {
            bytes.push(b'd')?;
            bytes.extend_from_slice(&index.to_le_bytes())
        }
        Call::Run { board } => bytes.extend_from_slice(&[b'r', board]),
        Call::Outlook => bytes.extend_from_slice(b"g"),
        Call::Commit { most } => {
            bytes.push(b'c')?;
            bytes.extend_from_slice(&most.to_le_bytes())
        }
    }
}

// How many bytes a call takes.
pub(crate) fn call_size(call: Call) -> usize
    ensures { result ≡ length (bytes_of call) }
{
    match call {
        Call::Offer { .. } => 11,
        Call::Deliver { .. } | Call::Commit { .. } => 3,
        Call::Run { .. } => 2,
        Call::Outlook => 1,
    }
}

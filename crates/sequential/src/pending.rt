// The pending messages, which lie in front of a memory: the next one, one less, and more.
// The memory is lent, as long as the caller likes, so that a run allocates nothing.
ghost use Rattle.std.specs.Prelude.{◌≡◌, ◌+◌, ◌≤◌, ◌++◌, length, take};
ghost use Rattle.rows.specs.Rows.{without_one, in_front};
ghost use Rattle.bus.specs.Order.{message_before};
ghost use Rattle.bus.specs.Reactions.{listed};
ghost use Rattle.sequential.specs.Runs.{next_of};

use crate::outcome::Ended;
use addressing::Batch;
use bus::Message;

// The least pending message, or why the run ends after so many steps.
pub(crate) fn next(
    pending: &[Message],
    held: usize,
    steps: usize,
    lines: usize,
) -> Result<Message, Ended>
    ensures { result ≡ next_of (length pending.now) lines steps (take held pending.now) }
{
    let row = rows::row(pending, held);
    match rows::least(row) {
        None => Err(Ended::NothingPending),
        Some(_) if steps >= lines => Err(Ended::LogFull),
        Some(_) if row.len() >= pending.len() => Err(Ended::PendingFull),
        Some(message) => Ok(message),
    }
}

// Drops the first pending message that equals this one, and answers how many are left.
pub(crate) fn discard(pending: &mut [Message], held: usize, message: &Message) -> usize
    ensures answer { result ≡ length (without_one message_before message.now (take held pending.old)) }
    ensures after { pending.new ≡ in_front (without_one message_before message.now (take held pending.old)) pending.old }
{
    // no `map_or_else`: its two closures would borrow the memory at once
    match rows::find(pending, held, message) {
        Some(place) => rows::remove(pending, held, place),
        None => rows::row(pending, held).len(),
    }
}

// Puts messages behind the pending ones, and answers how many there are then. Like `Transit::send` in `queues`, but in
// memory that is lent.
pub(crate) fn append(pending: &mut [Message], held: usize, batch: &Batch) -> usize
    requires { held + 2 ≤ length pending.old }
    ensures answer { result ≡ held + length (listed batch.now) }
    ensures after { pending.new ≡ in_front (take held pending.old ++ listed batch.now) pending.old }
{
    match batch {
        Batch::Nothing => {}
        Batch::One(message) => pending[held] = *message,
        Batch::Two(first, second) => {
            pending[held..held + 2].copy_from_slice(&[*first, *second]);
        }
    }
    held + batch.len()
}

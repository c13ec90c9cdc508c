// Notes of what was sent, at the end of an out-row.
ghost use Rattle.std.specs.Prelude.{◌≡◌, ◌++◌, take};
ghost use Rattle.rows.specs.Held.{held};
ghost use Rattle.bus.specs.Reactions.{listed};
ghost use Rattle.queues.specs.Memory.{sent_by};

use addressing::Batch;
use bus::{Message, Sent};
use rows::Row;

// Notes behind the others what a cause sent. A board numbers its messages as it sends them,
// so what is noted behind the others keeps an out-row in its order. Like `Transit::send`, but for what is pushed:
// one function over a closure and both rows would be longer than the two.
pub(crate) fn note_sent(row: &mut Row<Sent, 64>, cause: Message, batch: &Batch)
    ensures { held row.new ≡ take 64 (held row.old ++ sent_by cause (listed batch.now)) }
{
    match *batch {
        Batch::Nothing => {}
        Batch::One(message) => row.push(Sent { message, cause }),
        Batch::Two(first, second) => {
            row.push(Sent {
                message: first,
                cause,
            });
            row.push(Sent {
                message: second,
                cause,
            });
        }
    }
}

// One message taken: its destination reacts, and what that sends is addressed and numbered.
ghost use Rattle.std.specs.Prelude.{◌≡◌, ◌+◌, ◌^◌, ◌<◌, length, slice_index};
ghost use Rattle.bus.specs.Reactions.{listed};
ghost use Rattle.sequential.specs.Racks.{rows_reacted, sends_reacted, rows_after, messages_after, sent_after};

use addressing::{Batch, Origin};
use bus::{Message, Sends};
use racks::Rack;

// Lets the destination's board react, and keeps only its newest words.
fn react<R: Rack>(rack: &mut R, message: &Message) -> Sends
    ensures left { R.Rack.rows rack.new ≡ rows_reacted R.Rack.rules (R.Rack.rows rack.old) message.now }
    ensures answer { result ≡ sends_reacted R.Rack.rules (R.Rack.rows rack.old) message.now }
{
    let answer = rack.take(message.destination, message);
    let _ = rack.forget(message.destination, 1);
    answer.unwrap_or(Sends::Nothing)
}

// Takes a message on a bus that ends at this time, where each board has sent so many messages.
// One that goes to no board changes nothing, and nothing is sent.
pub(crate) fn advance<R: Rack>(
    rack: &mut R,
    end: u32,
    sent: &mut [u32; 8],
    message: &Message,
) -> Batch
    requires { slice_index sent.old message.now.destination + 2 < 2 ^ 32 }
    ensures left { R.Rack.rows rack.new ≡ rows_after R.Rack.rules (R.Rack.rows rack.old) message.now }
    ensures answer { listed result ≡ messages_after R.Rack.rules end (R.Rack.rows rack.old) sent.old message.now }
    ensures counted { sent.new ≡ sent_after R.Rack.rules sent.old message.now (length (listed result)) }
{
    let boards = R::boards();
    let source = message.destination;
    if source >= boards {
        return Batch::Nothing;
    }
    let sends = react(rack, message);
    let origin = Origin {
        boards,
        end,
        source,
        time: message.time,
    };
    let place = usize::from(source);
    let batch = origin.messages(sent[place], &sends);
    // at most two: no `try_from`, which could give up
    sent[place] += batch.len() as u32;
    batch
}

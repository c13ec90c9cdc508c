// Whether and where a row holds a message.
ghost use Rattle.std.specs.Prelude.{◌≡◌};
ghost use Rattle.rows.specs.Rows.{first_of};
ghost use Rattle.bus.specs.Order.{message_before};
ghost use Rattle.model.specs.Deliver.{has};

use bus::Message;

// The place of the first message that is equal in every field.
pub(crate) fn find(row: &[Message], message: &Message) -> Option<usize>
    ensures { result ≡ first_of message_before message.now row.now }
{
    rows::find(row, row.len(), message)
}

// Only a message that is equal in every field counts.
pub(crate) fn holds(row: &[Message], message: &Message) -> bool
    ensures { result ≡ has message.now row.now }
{
    find(row, message).is_some()
}

// What an arrival asks of the bench.
ghost use Rattle.std.specs.Prelude.{◌≡◌};
ghost use Rattle.model.specs.State.{no_queues};
ghost use Rattle.queues.specs.Arrivals.{plan_of};

use model::Item;

// How many events stay, whether there is no place for the arrival, how many messages are recalled, and how many events are undone.
// `full` stands beside the counts, not an `Err` in their place: they are told of a full board too.
#[derive(Clone, Copy)]
pub struct Plan {
    pub stay: usize,
    pub full: bool,
    pub recalled: usize,
    pub undone: usize,
}

impl Plan {
    // What an arrival at no board asks: nothing.
    pub(crate) fn nowhere(item: &Item) -> Plan
        ensures { result ≡ plan_of item.now no_queues }
    {
        Plan {
            stay: 0,
            full: false,
            recalled: 0,
            undone: 0,
        }
    }
}

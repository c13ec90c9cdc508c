// The queues of the eight boards, and what is read of one of them by its address.
ghost use Rattle.std.specs.Prelude.{◌≡◌, map, drop, replicate, None};
ghost use Rattle.std.specs.List.{fold, enumerate_from};
ghost use Rattle.model.specs.State.{no_queues, issued, sends_of, flat};
ghost use Rattle.model.specs.Outlook.{open_and_early};
ghost use Rattle.model.specs.Lines.{front_of, soonest};
ghost use Rattle.queues.specs.Entries.{queues_of, first_message, boards_in, board_in};
ghost use Rattle.queues.specs.Arrivals.{plan_of};
ghost use Rattle.queues.specs.Memory.{messages_of};
ghost use Rattle.queues.specs.Outlooks.{least_onto};
ghost use Rattle.queues.specs.Fronts.{sooner};

use crate::board::BoardQueues;
use crate::plan::Plan;
use bus::{Message, Sent};
use model::{Front, Item};
use rows::TotalOrder;

#[derive(Drop)]
pub struct Table {
    pub entries: [BoardQueues; 8],
}

// The front so far, or that of a later board, if its message is before. Not `rows::lesser`: fronts are compared by
// their messages alone, so that they have no total order.
fn sooner(best: Option<Front>, board: usize, first: Option<Message>) -> Option<Front>
    ensures { result ≡ sooner best board first }
{
    match (best, first) {
        (best, None) => best,
        (Some(front), Some(message)) if !message.before(&front.message) => Some(front),
        (_, Some(message)) => Some(Front { board, message }),
    }
}

// The fronts of some boards, one after the other.
fn soonest_of(entries: &[BoardQueues]) -> Option<Front>
    ensures { result ≡ fold (λ best p. sooner best p.0 (front_of (queues_of p.1))) None (enumerate_from 0 entries.now) }
{
    entries.iter().enumerate().fold(
        None,
        |best, (board, entry)| sooner(best, board, entry.front()),
    )
}

impl Table {
    // Eight boards at which nothing waits.
    pub fn empty() -> Table
        ensures { boards_in result ≡ replicate 8 no_queues }
    {
        Table {
            entries: [BoardQueues::empty(); 8],
        }
    }

    // The first open message of board k.
    pub fn next(&self, k: usize) -> Option<Message>
        ensures { result ≡ first_message (board_in self.now k).open_ones }
    {
        self.entries.get(k)?.next()
    }

    // How many messages the committed and the standing events of board k sent.
    pub fn issued(&self, k: usize) -> u64
        ensures { result ≡ issued (board_in self.now k) }
    {
        self.entries.get(k).map_or(0, |entry| entry.issued())
    }

    // What an arrival at board k asks of the bench.
    pub fn plan(&self, k: usize, item: &Item) -> Plan
        ensures { result ≡ plan_of item.now (board_in self.now k) }
    {
        self.entries
            .get(k)
            .map_or_else(|| Plan::nowhere(item), |entry| entry.plan(item))
    }

    // What the standing events of board k from a place on sent.
    pub fn sends_from(&self, k: usize, stay: usize) -> &[Sent]
        ensures { messages_of result.now ≡ sends_of (drop stay (board_in self.now k).standing) }
    {
        self.entries
            .get(k)
            .map_or(&[], |entry| entry.sends_from(stay))
    }

    // The least message that is outstanding at the boards, and of the rest.
    pub fn outlook(&self, rest: Option<Message>) -> Option<Message>
        ensures { result ≡ least_onto (flat (map open_and_early (boards_in self.now))) rest }
    {
        self.entries
            .iter()
            .rfold(rest, |best, entry| entry.outlook(best))
    }

    // The least first standing message, and its board.
    pub fn soonest(&self) -> Option<Front>
        ensures { result ≡ soonest 0 (boards_in self.now) }
    {
        soonest_of(&self.entries)
    }
}

// Runs of a fare computer, a reader and a ticker, each to another end.
use super::*;
use boards::{FareComputer, Reader, Ticker};
use bus::{Message, ZEROS};
use racks::{One, Pair};
use savers::{Checkpoints, FullCopies};

fn message(time: u32, source: u8, number: u32, destination: u8, kind: u8, payload: u32) -> Message {
    Message {
        time,
        source,
        number,
        destination,
        kind,
        payload,
    }
}

// A card at 10, and a later one.
fn cards() -> [Message; 2] {
    [message(10, 255, 0, 1, 2, 77), message(30, 255, 1, 1, 2, 5)]
}

// A run with end time 1000, from zeros on.
fn run_boards(pending: &mut [Message], count: usize, log: &mut [Message]) -> Outcome {
    let mut rack = Pair {
        left: One {
            saver: FullCopies::new(FareComputer::new()),
        },
        right: Pair {
            left: One {
                saver: Checkpoints::new(Reader::new()),
            },
            right: One {
                saver: FullCopies::new(Ticker::new()),
            },
        },
    };
    run(&mut rack, 1000, &[ZEROS; 8], pending, count, log)
}

#[test]
fn both_cards_get_their_verdicts(rt: HostRuntime) {
    let [first, second] = cards();
    let mut pending = [second, first, first];
    let mut log = [first; 7];
    let outcome = run_boards(&mut pending, 2, &mut log);
    assert!(rt; matches!(outcome.ended, Ended::NothingPending));
    assert!(rt; outcome.steps == 6 && outcome.pending == 0);
    assert!(rt; log[1] == message(15, 1, 0, 0, 3, 77) && log[5] == message(38, 0, 1, 1, 4, 1));
    assert!(rt; log[6] == first);
}

#[test]
fn memory_without_a_free_place_ends_a_run(rt: HostRuntime) {
    let [first, second] = cards();
    let mut none = [first; 0];
    let mut line = [second];
    let mut pending = [second, first, first];
    assert!(rt; matches!(run_boards(&mut pending, 2, &mut none).ended, Ended::LogFull));
    assert!(rt;
        matches!(
            run_boards(&mut pending, 9, &mut line).ended,
            Ended::PendingFull
        )
    );
    assert!(rt;
        matches!(
            run_boards(&mut pending, 0, &mut line).ended,
            Ended::NothingPending
        )
    );
    assert!(rt; line[0] == second);
    let outcome = run_boards(&mut pending, 2, &mut line);
    assert!(rt; matches!(outcome.ended, Ended::LogFull));
    assert!(rt; outcome.steps == 1 && outcome.pending == 2);
    assert!(rt;
        line[0] == first && pending[0] == second && pending[1] == message(15, 1, 0, 0, 3, 77)
    );
}

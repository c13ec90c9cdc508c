// Every count of the boards goes round from the largest number to 0.
use super::*;
use bus::{BEAT, INQUIRY, Message, TICK, VERDICT, Words};

const MOST: u32 = 4294967295;

fn words(w0: u32, w1: u32, w2: u32, w3: u32) -> Words {
    Words { w0, w1, w2, w3 }
}

// The words of a board after a message.
fn after<B: Board>(board: B, start: Words, kind: u8, payload: u32) -> Words {
    let mut board = board;
    let message = Message {
        time: 7,
        source: 1,
        number: 0,
        destination: 2,
        kind,
        payload,
    };
    board.load(start);
    let _ = board.react(&message);
    board.words()
}

#[test]
fn ticker_count_goes_round(rt: HostRuntime) {
    assert!(rt; after(Ticker::new(), words(4, 0, 0, MOST), TICK, 0) == words(4, 0, 0, 0));
}

#[test]
fn reader_counts_go_round(rt: HostRuntime) {
    assert!(rt; after(Reader::new(), words(1, 9, MOST, 3), VERDICT, 1) == words(0, 9, 0, 3));
    assert!(rt; after(Reader::new(), words(1, 9, 3, MOST), VERDICT, 0) == words(0, 9, 3, 0));
}

#[test]
fn fare_computer_counts_go_round(rt: HostRuntime) {
    assert!(rt; after(FareComputer::new(), words(9, MOST, 3, 5), INQUIRY, 8) == words(8, 0, 3, 5));
    assert!(rt; after(FareComputer::new(), words(9, 3, MOST, 5), BEAT, 8) == words(9, 3, 0, 5));
}

// The places of a board: its in-row and its early anti-messages share 32.
use crate::board::BoardQueues;
use bus::Message;
use model::Item;

fn message(number: u32) -> Message {
    Message {
        time: 5,
        source: 1,
        number,
        destination: 0,
        kind: 9,
        payload: 7,
    }
}

// A board at which the messages 0 to 29 arrive, and then so many early anti-messages.
fn nearly_full(early: u32) -> BoardQueues {
    let mut board = BoardQueues::empty();
    for number in 0..30 {
        board.arrive(&Item::Plus(message(number)));
    }
    for number in 0..early {
        board.arrive(&Item::Minus(message(number.wrapping_add(100))));
    }
    board
}

#[test]
fn the_last_place_is_given(rt: HostRuntime) {
    let board = nearly_full(1);
    assert!(rt; !board.plan(&Item::Plus(message(30))).full);
    assert!(rt; !board.plan(&Item::Minus(message(30))).full);
}

#[test]
fn a_full_board_takes_only_what_needs_no_place(rt: HostRuntime) {
    let mut board = nearly_full(2);
    assert!(rt; board.plan(&Item::Plus(message(30))).full);
    assert!(rt; board.plan(&Item::Minus(message(30))).full);
    assert!(rt; !board.plan(&Item::Plus(message(100))).full);
    board.arrive(&Item::Minus(message(0)));
    assert!(rt; !board.plan(&Item::Plus(message(30))).full);
}

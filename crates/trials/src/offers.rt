// Offers: refused with 1, 2, 20 and 21, in this order.
use crate::playing_text::{expect, repeat};
use std::test::Fail;

// A card at 30 whose verdict, at 38, is the last committed line.
const UP_TO_38: &str = "end 1000\no 30 1 2 5\nd 0\nr 1\nd 0\nr 0\nd 0\nr 1\nc 8\n";

#[test]
fn no_board_goes_before_the_end_time(rt: HostRuntime) -> Result<(), Fail> {
    expect(
        &rt,
        "end 1000\no 1001 3 2 5\no 1001 2 2 5\no 1000 2 9 5\ng\n",
        "R 0 1\nR 1 2\nG 1000 255 0 2 9 5\nE 0 0 0\n",
    )
}

#[test]
fn an_offer_for_the_last_lines_time_passes(rt: HostRuntime) -> Result<(), Fail> {
    let mut text = String::from_str(rt.alloc(), UP_TO_38)?;
    text.push_str("o 38 1 2 9\no 37 1 2 9\ng\n")?;
    expect(
        &rt,
        &text,
        "L 30 255 0 1 2 5\nL 35 1 0 0 3 5\nL 38 0 0 1 4 1\nR 9 20\nG 38 255 1 1 2 9\nE 3 0 0\n",
    )
}

#[test]
fn the_last_line_goes_before_full_transit(rt: HostRuntime) -> Result<(), Fail> {
    let mut text = String::from_str(rt.alloc(), UP_TO_38)?;
    repeat(&mut text, "o 40 2 9 0\n", 128)?;
    text.push_str("o 37 1 2 9\no 38 1 2 9\n")?;
    expect(
        &rt,
        &text,
        "L 30 255 0 1 2 5\nL 35 1 0 0 3 5\nL 38 0 0 1 4 1\nR 136 20\nR 137 21\nE 3 0 0\n",
    )
}

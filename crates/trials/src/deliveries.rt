// Deliveries: refused with 24, 22 and 21, in this order; boards with 31 and 32 places taken.
use crate::playing_text::{expect, repeat};
use std::test::Fail;

#[test]
fn the_33rd_message_has_no_place(rt: HostRuntime) -> Result<(), Fail> {
    let mut text = String::from_str(rt.alloc(), "end 1000\nd 0\n")?;
    repeat(&mut text, "o 5 1 9 0\n", 33)?;
    repeat(&mut text, "d 0\n", 32)?;
    text.push_str("d 0\nd 1\n")?;
    expect(&rt, &text, "R 0 24\nR 66 22\nR 67 24\nE 0 0 0\n")
}

// Two ticks stand, and each sent a beat. An earlier message would undo both: 127 items remain, and 2 more are too many.
#[test]
fn two_recalled_messages_do_not_fit_127_items(rt: HostRuntime) -> Result<(), Fail> {
    let mut text = String::from_str(
        rt.alloc(),
        "end 1000\no 20 2 1 0\no 21 2 1 0\nd 0\nd 0\nr 2\nr 2\no 10 2 9 0\n",
    )?;
    repeat(&mut text, "o 50 1 9 0\n", 125)?;
    text.push_str("d 2\nr 1\n")?;
    expect(&rt, &text, "R 132 21\nR 133 23\nE 0 2 0\n")
}

#[test]
fn one_recalled_message_fits_127_items(rt: HostRuntime) -> Result<(), Fail> {
    let mut text = String::from_str(rt.alloc(), "end 1000\no 20 2 1 0\nd 0\nr 2\no 10 2 9 0\n")?;
    repeat(&mut text, "o 50 1 9 0\n", 126)?;
    text.push_str("d 1\ng\n")?;
    expect(&rt, &text, "U 1\nG 10 255 1 2 9 0\nE 0 0 1\n")
}

#[test]
fn a_full_board_goes_before_full_transit(rt: HostRuntime) -> Result<(), Fail> {
    let mut text = String::from_str(rt.alloc(), "end 1000\n")?;
    repeat(&mut text, "o 20 2 1 0\n", 32)?;
    repeat(&mut text, "d 0\n", 32)?;
    text.push_str("r 2\nr 2\no 10 2 9 0\n")?;
    repeat(&mut text, "o 50 1 9 0\n", 125)?;
    text.push_str("d 2\n")?;
    expect(&rt, &text, "R 192 22\nE 0 2 0\n")
}

// Anti-messages overtake their messages until 32 are early; then one has no place, and a message that meets its own needs none.
#[test]
fn the_33rd_early_anti_message_has_no_place(rt: HostRuntime) -> Result<(), Fail> {
    let mut text = String::from_str(rt.alloc(), "end 1000\n")?;
    repeat(&mut text, "o 20 2 1 0\n", 29)?;
    repeat(&mut text, "d 0\n", 29)?;
    repeat(&mut text, "r 2\n", 29)?;
    text.push_str("o 10 2 9 0\n")?;
    repeat(&mut text, "d 29\n", 30)?;
    repeat(&mut text, "r 2\n", 4)?;
    text.push_str("o 5 2 9 0\n")?;
    repeat(&mut text, "d 32\n", 4)?;
    repeat(&mut text, "r 2\n", 3)?;
    text.push_str("o 4 2 9 0\nd 33\nd 33\nd 0\nd 32\ng\n")?;
    expect(
        &rt,
        &text,
        "U 29\nU 4\nU 3\nR 132 22\nG 4 255 31 2 9 0\nE 0 0 36\n",
    )
}

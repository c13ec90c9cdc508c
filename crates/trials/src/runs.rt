// Runs: refused with 1, 23 and 21, in this order; 126 items in transit still pass.
use crate::playing_text::{expect, repeat};
use std::test::Fail;

#[test]
fn more_than_126_in_transit_are_too_many(rt: HostRuntime) -> Result<(), Fail> {
    let mut text = String::from_str(rt.alloc(), "end 1000\nr 3\nr 1\no 5 2 9 0\nd 0\n")?;
    repeat(&mut text, "o 40 1 9 0\n", 127)?;
    text.push_str("r 1\nr 2\nr 3\nd 0\nr 2\n")?;
    expect(
        &rt,
        &text,
        "R 0 1\nR 1 23\nR 131 23\nR 132 21\nR 133 1\nE 0 1 0\n",
    )
}

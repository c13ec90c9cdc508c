// Commits into memory for no line, for one, and for more than there are.
use crate::playing_text::expect;
use std::test::Fail;

#[test]
fn a_commit_writes_what_fits(rt: HostRuntime) -> Result<(), Fail> {
    expect(
        &rt,
        "end 1000\no 10 0 3 1\no 11 0 3 2\no 12 0 3 2\nd 0\nd 0\nd 0\nr 0\nr 0\nr 0\nc 0\nc 1\ng\nc 300\n",
        "L 10 255 0 0 3 1\nG -\nL 11 255 1 0 3 2\nL 12 255 2 0 3 2\nE 3 0 0\n",
    )
}

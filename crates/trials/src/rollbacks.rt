// Rollbacks: equal messages that both stand.
use crate::playing_text::expect;
use std::test::Fail;

// The reader's card is undone and run again, so that its inquiry is sent again before the anti-message of the first one comes.
// At the fare computer both stand; the anti-message takes the last of them.
#[test]
fn an_anti_message_takes_the_last_of_two_equals(rt: HostRuntime) -> Result<(), Fail> {
    expect(
        &rt,
        "end 1000\no 30 1 2 5\nd 0\nr 1\nd 0\nr 0\no 20 1 9 0\nd 1\ng\nr 1\nr 1\nd 2\nr 0\nd 1\ng\nd 0\nd 0\nc 9\n",
        "U 1\nG 20 255 1 1 9 0\nU 1\nG 38 0 0 1 4 1\nL 20 255 1 1 9 0\nL 30 255 0 1 2 5\nL 35 1 0 0 3 5\nE 3 0 2\n",
    )
}

// A schedule that runs to the end: the committed lines are all of the sequential machine's log.
use crate::playing_text::packed;
use oracle::reference_log;
use playing::play;
use std::test::Fail;

// The example with the later card first, and then the calls that bring that card to its verdict.
const TO_THE_END: &str =
    "end 1000\no 10 1 2 77\no 30 1 2 5\nd 1\nr 1\nd 0\nd 1\nd 0\nr 1\nd 0\nr 0\nd 0\nr 1\nr 1\nc 2\nd 0\nr 0\nd 0\nr 1\nc 9\n";

#[test]
fn play_and_reference_agree_at_the_end(rt: HostRuntime) -> Result<(), Fail> {
    let bytes = packed(&rt, TO_THE_END)?;
    let lines =
        "L 10 255 0 1 2 77\nL 15 1 0 0 3 77\nL 18 0 0 1 4 1\nL 30 255 1 1 2 5\nL 35 1 1 0 3 5\nL 38 0 1 1 4 1\n";
    let mut played = String::from_str(rt.alloc(), "U 1\n")?;
    played.push_str(lines)?;
    played.push_str("E 6 0 1\n")?;
    let mut reference = String::from_str(rt.alloc(), lines)?;
    reference.push_str("E 6\n")?;
    let text = play(rt.alloc(), &bytes)?;
    assert_eq!(rt; text.as_str(), played.as_str());
    let log = reference_log(rt.alloc(), &bytes)?;
    assert_eq!(rt; log.as_str(), reference.as_str());
    Ok(())
}

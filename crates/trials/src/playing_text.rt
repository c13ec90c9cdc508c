// A schedule as text, packed and played.
use packing::pack;
use playing::play;
use std::process::Abort;
use std::test::Fail;

// The file of the schedule that a text lists.
pub(crate) fn packed(rt: &impl AllocGlobal, schedule: &str) -> Result<Vec<u8>, Fail> {
    pack(rt.alloc(), schedule.as_bytes()).map_err(|_| Fail::new("the schedule cannot be packed"))
}

// Plays the schedule that a text lists, and compares what is printed.
pub(crate) fn expect(
    rt: &(impl Abort + AllocGlobal),
    schedule: &str,
    printed: &str,
) -> Result<(), Fail> {
    let bytes = packed(rt, schedule)?;
    let text = play(rt.alloc(), &bytes)?;
    assert_eq!(rt; text.as_str(), printed);
    Ok(())
}

// Adds a line many times.
pub(crate) fn repeat(text: &mut String, line: &str, times: usize) -> Result<(), Fail> {
    for _ in 0..times {
        text.push_str(line)?;
    }
    Ok(())
}

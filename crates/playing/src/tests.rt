// Files by what is printed of them: a fault, no calls, and calls that are refused.
use crate::play;
use std::process::Abort;
use std::test::Fail;

// Each crate of texts has this helper: one for all would be a crate below them, for tests alone.
fn expect(rt: &(impl Abort + AllocGlobal), bytes: &[u8], printed: &str) -> Result<(), Fail> {
    let text = play(rt.alloc(), bytes)?;
    assert_eq!(rt; text.as_str(), printed);
    Ok(())
}

#[test]
fn a_fault_is_all_that_is_printed(rt: HostRuntime) -> Result<(), Fail> {
    expect(&rt, b"\x01\x00\x05\x00\x00\x00gx", "F 2 7 5\n")
}

#[test]
fn no_calls_leave_no_totals(rt: HostRuntime) -> Result<(), Fail> {
    expect(&rt, b"\x01\x00\x05\x00\x00\x00", "E 0 0 0\n")
}

#[test]
fn refusals_are_told_by_call(rt: HostRuntime) -> Result<(), Fail> {
    let no_board = b"\x01\x00\x05\x00\x00\x00o\x06\x00\x00\x00\x03\x02\x4d\x00\x00\x00";
    expect(&rt, no_board, "R 0 1\nE 0 0 0\n")?;
    let past_end = b"\x01\x00\x05\x00\x00\x00go\x06\x00\x00\x00\x02\x02\x4d\x00\x00\x00";
    expect(&rt, past_end, "G -\nR 1 2\nE 0 0 0\n")
}

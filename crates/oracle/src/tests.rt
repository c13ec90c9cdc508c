// What is printed of a few files: none but the end, the example's run, and refused offers.
use crate::reference_log;
use std::process::Abort;
use std::test::Fail;

// Each crate of texts has this helper: one for all would be a crate below them, for tests alone.
fn expect(rt: &(impl Abort + AllocGlobal), bytes: &[u8], printed: &str) -> Result<(), Fail> {
    let text = reference_log(rt.alloc(), bytes)?;
    assert_eq!(rt; text.as_str(), printed);
    Ok(())
}

#[test]
fn files_without_lines(rt: HostRuntime) -> Result<(), Fail> {
    expect(&rt, b"", "F 1 0 3\n")?;
    expect(&rt, b"\x01\x00\x05\x00\x00\x00", "E 0\n")?;
    expect(&rt, b"\x01\x00\x05\x00\x00\x00gx", "F 2 7 5\n")
}

// An offer to board 3, one past the end time, and one for the ticker at the end time.
#[test]
fn refused_offers_take_no_number(rt: HostRuntime) -> Result<(), Fail> {
    expect(
        &rt,
        b"\x01\x00\x05\x00\x00\x00go\x09\x00\x00\x00\x03\x01\x07\x00\x00\x00o\x06\x00\x00\x00\x02\x01\x07\x00\x00\x00o\x05\x00\x00\x00\x02\x01\x07\x00\x00\x00",
        "R 1 1\nR 2 2\nL 5 255 0 2 1 7\nE 1\n",
    )
}

// Files with each fault, the shortest and the longest file, and calls cut short, by what is printed of them.
use crate::list;
use std::test::Fail;

// Each crate of texts has this helper: one for all would be a crate below them, for tests alone.
fn expect(rt: &impl AllocGlobal, bytes: &[u8], printed: &str) -> Result<(), Fail> {
    let text = list(rt.alloc(), bytes)?;
    if text.as_str() == printed {
        Ok(())
    } else {
        Err(Fail::new("another text"))
    }
}

#[test]
fn faults_of_the_file(rt: HostRuntime) -> Result<(), Fail> {
    expect(&rt, b"", "F 1 0 3\n")?;
    expect(&rt, b"\x01\x00\x05\x00\x00", "F 1 5 3\n")?;
    expect(&rt, b"\x02\x00\x05\x00\x00\x00", "F 1 0 4\n")?;
    expect(&rt, b"\x00\x01\x05\x00\x00\x00", "F 1 0 4\n")?;
    expect(&rt, b"\x01\x00\x05\x00\x00\x00", "end 5\n")?;
    expect(&rt, b"\x01\x00\x05\x00\x00\x00gx", "F 2 7 5\n")
}

#[test]
fn calls_cut_at_each_byte(rt: HostRuntime) -> Result<(), Fail> {
    let offer = b"\x01\x00\xe8\x03\x00\x00o\x0a\x00\x00\x00\x01\x02\x4d\x00\x00\x00";
    for end in 7..17 {
        expect(&rt, &offer[0..end], "F 3 6 6\n")?;
    }
    expect(&rt, offer, "end 1000\no 10 1 2 77\n")?;
    expect(&rt, b"\x01\x00\x05\x00\x00\x00gd", "F 3 7 6\n")?;
    expect(&rt, b"\x01\x00\x05\x00\x00\x00gd\x01", "F 3 7 6\n")?;
    expect(&rt, b"\x01\x00\x05\x00\x00\x00gr", "F 3 7 6\n")?;
    expect(&rt, b"\x01\x00\x05\x00\x00\x00gc", "F 3 7 6\n")?;
    expect(&rt, b"\x01\x00\x05\x00\x00\x00gc\x01", "F 3 7 6\n")
}

#[test]
fn longest_file(rt: HostRuntime) -> Result<(), Fail> {
    let mut bytes = [1u8, 0, 9, 0, 0, 0].to_vec(rt.alloc())?;
    let mut printed = String::from_str(rt.alloc(), "end 9\n")?;
    for _ in 6..60_000 {
        bytes.push(b'g')?;
        printed.push_str("g\n")?;
    }
    expect(&rt, &bytes, &printed)?;
    bytes.push(b'g')?;
    expect(&rt, &bytes, "F 1 60000 7\n")
}

// No file has a longer listing than one of runs alone.
#[test]
fn longest_listing(rt: HostRuntime) -> Result<(), Fail> {
    let mut bytes = [1u8, 0, 255, 255, 255, 255].to_vec(rt.alloc())?;
    let mut printed = String::from_str(rt.alloc(), "end 4294967295\n")?;
    for _ in 0..29_997 {
        bytes.push(b'r')?;
        bytes.push(255)?;
        printed.push_str("r 255\n")?;
    }
    expect(&rt, &bytes, &printed)
}

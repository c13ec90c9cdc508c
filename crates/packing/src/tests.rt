// Texts that are packed and listed again, and texts that are refused, by the sentence that is printed.
use crate::pack;
use listing::list;
use std::test::Fail;

fn expect_back(rt: &impl AllocGlobal, text: &str) -> Result<(), Fail> {
    let Ok(bytes) = pack(rt.alloc(), text.as_bytes()) else {
        return Err(Fail::new("not packed"));
    };
    let listed = list(rt.alloc(), &bytes)?;
    if listed.as_str() == text {
        Ok(())
    } else {
        Err(Fail::new("another text"))
    }
}

fn expect_refusal(rt: &impl AllocGlobal, text: &str, sentence: &str) -> Result<(), Fail> {
    match pack(rt.alloc(), text.as_bytes()) {
        Ok(_) => Err(Fail::new("packed")),
        Err(error) => {
            let printed = error.to_string(rt.alloc())?;
            if printed.as_str() == sentence {
                Ok(())
            } else {
                Err(Fail::new("another sentence"))
            }
        }
    }
}

#[test]
fn listings(rt: HostRuntime) -> Result<(), Fail> {
    expect_back(&rt, "end 0\n")?;
    expect_back(&rt, "end 1000\no 10 1 2 77\nd 1\nr 1\ng\nc 8\n")?;
    expect_back(
        &rt,
        "end 4294967295\no 4294967295 255 0 4294967295\nd 65535\nr 255\nc 65535\n",
    )
}

#[test]
fn bad_lines(rt: HostRuntime) -> Result<(), Fail> {
    expect_refusal(&rt, "", "line 1: the end time is expected, as in: end 1000")?;
    expect_refusal(&rt, "end 4294967296\n", "line 1: the number is too large")?;
    expect_refusal(
        &rt,
        "end 9\ng\nr 01\n",
        "line 3: a number is expected, with no zero before it",
    )?;
    expect_refusal(&rt, "end 9\nr 256\n", "line 2: the number is too large")?;
    expect_refusal(
        &rt,
        "end 9\nx 1\n",
        "line 2: a call is expected: o, d, r, g or c",
    )?;
    expect_refusal(
        &rt,
        "end 9\ng\n\n",
        "line 3: a call is expected: o, d, r, g or c",
    )?;
    expect_refusal(
        &rt,
        "end 9\no 1 2 3\n",
        "line 2: one space and a number are expected",
    )?;
    expect_refusal(
        &rt,
        "end 9\nr 1 2\n",
        "line 2: the line should end after its last number",
    )?;
    expect_refusal(&rt, "end 9\nd 1", "line 2: the line has no end")
}

#[test]
fn longest_file(rt: HostRuntime) -> Result<(), Fail> {
    let mut text = String::from_str(rt.alloc(), "end 9\n")?;
    for _ in 6..60_000 {
        text.push_str("g\n")?;
    }
    expect_back(&rt, text.as_str())?;
    text.push_str("g\n")?;
    expect_refusal(
        &rt,
        text.as_str(),
        "the schedule is longer than 60000 bytes",
    )
}

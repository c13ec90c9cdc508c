// Packs the schedule that is listed on standard input: its bytes go to standard output, or what is wrong to standard error.
#![tactic(auto)]

use anyhow::bail;
use packing::pack;
use std::io::{Read, Write};

// Many times as long as the listing of a file can be.
const MOST_TEXT: usize = 1_000_000;

fn main(rt: HostRuntime) -> anyhow::Result<()> {
    let mut text = Vec::new(rt.alloc());
    // `From` does not go from usize to u64
    rt.stdin()
        .take(MOST_TEXT as u64 + 1)
        .read_to_end(&mut text)?;
    if text.len() > MOST_TEXT {
        rt.eprintln("the text is longer than 1000000 bytes")?;
        bail!("not packed");
    }
    // `?` alone would print the sentence and its end in one line.
    match pack(rt.alloc(), &text) {
        Ok(bytes) => rt.stdout().write_all(&bytes)?,
        Err(error) => {
            rt.eprintln(error)?;
            bail!("not packed");
        }
    }
    Ok(())
}

// The file layer: a whole text, line by line, and the bytes of the file.
ghost use Rattle.std.specs.Prelude.{◌≡◌, ℕ, ◌^◌, ◌<◌, List, [], ◌++◌, length, IfOk, MatchOption, MatchResult, OnOk};
ghost use Rattle.schedule.specs.declared.call.Call as calls;
ghost use Rattle.schedule.specs.Layout.{encode, Within, Follows};
ghost use Rattle.listing.specs.Listed.{call_line, end_line, listed};
ghost use Rattle.packing.specs.declared.error.PackError.TheVariants.{NoMemory};
ghost use Rattle.packing.specs.Wrong.{LineFault};
ghost use Rattle.packing.specs.Packing.{Packs, Refuses, LinesFit, WritesTheLines};

use crate::bytes::{call_size, push_call};
use crate::error::{PackError, Why, at_line};
use crate::line::{read_call_line, read_end_line};
use schedule::{Call, EDITION, MOST_BYTES};
use std::alloc::{AllocError, Global};

const HEADER_SIZE: usize = 6;

// The call of the first of the lines, and the lines that follow it, if there is a line.
fn next_call(lines: &[u8]) -> Result<Option<(Call, &[u8])>, Why>
    ensures { MatchResult result (λ next. MatchOption next (lines.now ≡ []) (λ x. (lines.now ≡ call_line x.0 ++ x.1.now) × Within x.0)) (λ why. (0 < length lines.now) × LineFault lines.now why) }
{
    let [letter, fields @ ..] = lines else {
        return Ok(None);
    };
    read_call_line(char::from(*letter), fields).map(Some)
}

// How many bytes the file takes, from the lines of its calls, which begin at line 2.
fn packed_size(lines: &[u8]) -> Result<usize, PackError>
    ensures { MatchResult result (λ size. LinesFit lines.now size) (λ e. (text : List ℕ) (end : ℕ) → text ≡ end_line end ++ lines.now → end < 2 ^ 32 → Refuses text e) }
{
    let mut size = HEADER_SIZE;
    let mut line = 2;
    let mut rest = lines;
    while let Some((call, after)) = at_line(line, next_call(rest))? {
        size += call_size(call);
        if size > MOST_BYTES {
            return Err(PackError::TooLong);
        }
        // no iterator counts the lines: where the next one begins is known when this one is read
        line += 1;
        rest = after;
    }
    Ok(size)
}

// Adds the calls of the lines, as far as the lines are sound.
fn push_lines(bytes: &mut Vec<u8>, lines: &[u8]) -> Result<(), AllocError>
    ensures { OnOk result (WritesTheLines lines.now bytes.old.items bytes.new.items) }
{
    let mut rest = lines;
    while let Ok(Some((call, after))) = next_call(rest) {
        push_call(bytes, call)?;
        rest = after;
    }
    Ok(())
}

// The file of an end time and the lines of its calls.
fn write_file(heap: Global, size: usize, end: u32, lines: &[u8]) -> Result<Vec<u8>, AllocError>
    ensures { IfOk result (λ v. WritesTheLines lines.now (encode end []) v.items) }
{
    let mut bytes = Vec::with_capacity(heap, size)?;
    bytes.extend_from_slice(&EDITION.to_le_bytes())?;
    bytes.extend_from_slice(&end.to_le_bytes())?;
    push_lines(&mut bytes, lines)?;
    Ok(bytes)
}

// The schedule file that lists as the text. The text is checked first: a bad line goes before want of memory.
pub fn pack(heap: Global, text: &[u8]) -> Result<Vec<u8>, PackError>
    ensures packs_or_refuses { MatchResult result (λ v. Packs text.now v.items) (λ e. Refuses text.now e) }
    ensures undoes_the_listing { (bytes : List ℕ) (end : ℕ) (calls : List calls.Call) → Follows bytes end calls → listed bytes ≡ text.now → MatchResult result (λ v. v.items ≡ bytes) (λ e. e ≡ NoMemory) }
{
    let (end, lines) = at_line(1, read_end_line(text))?;
    let size = packed_size(lines)?;
    // `?` and `Ok`: the allocator's error becomes this crate's.
    Ok(write_file(heap, size, end, lines)?)
}

// The edges of the programs: a schedule file is read, a text is made of it, and the text is written.
#![tactic(auto)]

ghost use Rattle.std.specs.Prelude.{◌≡◌, ℕ, List, take, IfOk, OnOk, IfSome, string_bytes};
ghost use Rattle.std.specs.Io.KnownBytes.{Appends};

use anyhow::anyhow;
use std::alloc::{AllocError, Global};
use std::io;
use std::io::{Read, Write};

// One byte more than a schedule file may have, so that a longer one is seen as such.
const ENOUGH: u64 = 60_001;

// What makes the text that a program writes: a trait, and no function that is handed in, of which only a premise could
// say that it may be called.
pub trait TextOf {
    // Whether a text may be made of a file.
    ghost Made: { Self → List ℕ → List ℕ → Type 0 };

    // The text of a file.
    fn text_of(self, heap: Global, file: &[u8]) -> Result<String, AllocError>
        ensures { IfOk result (λ text. Made self file.now (string_bytes text)) };
}

// The bytes of the input, as many as are enough to tell that a file is too long.
pub fn read_file<R: Read + Drop>(heap: Global, input: R) -> io::Result<Vec<u8>>
    ensures { IfOk result (λ file. IfSome (R.remaining input) (λ bytes. file.items ≡ take 60001 bytes)) }
{
    let mut file = Vec::new(heap);
    input.take(ENOUGH).read_to_end(&mut file)?;
    Ok(file)
}

// Writes a text.
pub fn write_text<W: Write>(output: &mut W, text: &String) -> io::Result<()>
    ensures { OnOk result (Appends (W.contents output.old) (W.contents output.new) (string_bytes text.now)) }
{
    output.write_all(text.as_bytes())
}

// Reads a file, and writes the text that is made of it.
pub fn write_text_of<R, W, T>(heap: Global, input: R, output: &mut W, make: T) -> anyhow::Result<()>
where
    R: Read + Drop,
    W: Write,
    T: TextOf + Drop,
    ensures { OnOk result ((file : List ℕ) × (text : List ℕ) × T.Made make file text
        × IfSome (R.remaining input) (λ bytes. file ≡ take 60001 bytes)
        × Appends (W.contents output.old) (W.contents output.new) text) }
{
    let file = read_file(heap, input)?;
    let text = make.text_of(heap, &file).map_err(|_| anyhow!("no memory"))?;
    write_text(output, &text)?;
    Ok(())
}

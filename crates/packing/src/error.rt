// Why a text is not packed, and at which line.
ghost use Rattle.std.specs.Prelude.{◌≡◌};
ghost use Rattle.packing.specs.declared.error.PackError.TheVariants.{NoMemory};
ghost use Rattle.packing.specs.Packing.{at_line};

use std::alloc::AllocError;

// What is wrong with a line.
#[derive(Clone, Copy)]
pub enum Why {
    NoEndTime,
    UnknownCall,
    NoSpace,
    BadNumber,
    TooLarge,
    ExtraText,
    NoEndOfLine,
}

// Lines count from 1.
#[derive(Clone, Copy)]
pub enum PackError {
    BadLine { line: usize, why: Why },
    TooLong,
    NoMemory,
}

impl From<AllocError> for PackError {
    ghost from_gives = { λ _ r. r ≡ NoMemory };

    fn from(_e: AllocError) -> PackError {
        PackError::NoMemory
    }
}

// What was read of a line, with the line's number that the file layer knows.
pub(crate) fn at_line<T>(line: usize, read: Result<T, Why>) -> Result<T, PackError>
    ensures { result ≡ at_line line read }
{
    read.map_err(|why| PackError::BadLine { line, why })
}

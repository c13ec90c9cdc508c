// How an error is printed.
ghost use Rattle.std.specs.Prelude.{Some};
ghost use Rattle.packing.specs.Sentences.{why_text, error_text};

use crate::error::{PackError, Why};
use std::fmt;

impl fmt::Display for Why {
    ghost output = { λ w. Some (why_text w) };

    fn fmt<W: fmt::Write>(&self, f: &mut fmt::Formatter<W>) -> fmt::Result {
        match self {
            Why::NoEndTime => write!(f, "the end time is expected, as in: end 1000"),
            Why::UnknownCall => write!(f, "a call is expected: o, d, r, g or c"),
            Why::NoSpace => write!(f, "one space and a number are expected"),
            Why::BadNumber => write!(f, "a number is expected, with no zero before it"),
            Why::TooLarge => write!(f, "the number is too large"),
            Why::ExtraText => write!(f, "the line should end after its last number"),
            Why::NoEndOfLine => write!(f, "the line has no end"),
        }
    }
}

impl fmt::Display for PackError {
    ghost output = { λ e. Some (error_text e) };

    fn fmt<W: fmt::Write>(&self, f: &mut fmt::Formatter<W>) -> fmt::Result {
        match self {
            PackError::BadLine { line, why } => write!(f, "line {line}: {why}"),
            PackError::TooLong => write!(f, "the schedule is longer than 60000 bytes"),
            PackError::NoMemory => write!(f, "no memory"),
        }
    }
}

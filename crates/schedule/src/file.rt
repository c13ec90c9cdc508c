// The file layer: the header, and the calls up to the file's end.
ghost use Rattle.std.specs.Prelude.{◌≡◌, ◌-◌, ◌^◌, ◌<◌, ◌≤◌, [], ◌∷◌, ◌++◌, length, Some, None, MatchResult};
ghost use Rattle.schedule.specs.declared.file.ReadError.TheVariants.{Faulty, NoMemory};
ghost use Rattle.schedule.specs.Layout.{most_bytes, encode};
ghost use Rattle.schedule.specs.Faults.{placed, placed_result, in_file, header_fault, calls_fault, FaultsWhereItBreaksOff};
ghost use Rattle.schedule.specs.Reading.{AnswersTheReading, ReadsTheLayout};

use crate::call::{Call, CallFault, read_call};
use std::alloc::{AllocError, AllocFailed, Global};

pub const MOST_BYTES: usize = 60_000;

pub const EDITION: u16 = 1;

// The end time of a run, and its calls in file order.
#[derive(Drop)]
pub struct Schedule {
    pub end: u32,
    pub calls: Vec<Call>,
}

// The layer that met a fault, by its number.
#[derive(Clone, Copy)]
pub enum Layer {
    File = 1,
    Call = 2,
    Number = 3,
}

// Why a file is refused, by its number.
#[derive(Clone, Copy)]
pub enum Refusal {
    BelowHeader = 3,
    OtherEdition = 4,
    UnknownLetter = 5,
    CutShort = 6,
    TooLong = 7,
}

// Which layer refuses the file, at which byte, and why.
#[derive(Clone, Copy)]
pub struct Fault {
    pub layer: Layer,
    pub offset: usize,
    pub refusal: Refusal,
}

// Why there is no schedule: the file is at fault, or it is sound and there is no memory for its calls.
#[derive(Clone, Copy)]
pub enum ReadError {
    Faulty(Fault),
    NoMemory(AllocError),
}

impl From<Fault> for ReadError {
    ghost from_gives = { λ e r. r ≡ Faulty e };

    fn from(e: Fault) -> ReadError {
        ReadError::Faulty(e)
    }
}

impl<T: Drop> From<AllocFailed<T>> for ReadError {
    ghost from_gives = { λ _ r. r ≡ NoMemory (record {}) };

    fn from(e: AllocFailed<T>) -> ReadError {
        ReadError::NoMemory(e.into())
    }
}

impl CallFault {
    // The fault of a call whose letter stands at `offset`.
    fn at(self, offset: usize) -> Fault
        ensures { result ≡ placed offset self }
    {
        match self {
            CallFault::Number(_) => Fault {
                layer: Layer::Number,
                offset,
                refusal: Refusal::CutShort,
            },
            CallFault::UnknownLetter => Fault {
                layer: Layer::Call,
                offset,
                refusal: Refusal::UnknownLetter,
            },
        }
    }
}

fn file_fault(offset: usize, refusal: Refusal) -> Fault
    ensures { result ≡ in_file offset refusal }
{
    Fault {
        layer: Layer::File,
        offset,
        refusal,
    }
}

// The end time, and the bytes of the calls. One pattern for both numbers: a short header is one fault.
fn read_header(bytes: &[u8]) -> Result<(u32, &[u8]), Fault>
    ensures { MatchResult result (λ x. (bytes.now ≡ encode x.0 [] ++ x.1.now) × (x.0 < 2 ^ 32) × (length bytes.now ≤ most_bytes)) (λ e. header_fault bytes.now ≡ Some e) }
{
    if bytes.len() > MOST_BYTES {
        return Err(file_fault(MOST_BYTES, Refusal::TooLong));
    }
    let [low, high, t0, t1, t2, t3, calls @ ..] = bytes else {
        return Err(file_fault(bytes.len(), Refusal::BelowHeader));
    };
    if u16::from_le_bytes([*low, *high]) != EDITION {
        return Err(file_fault(0, Refusal::OtherEdition));
    }
    Ok((u32::from_le_bytes([*t0, *t1, *t2, *t3]), calls))
}

// What the call layer answers, with the place that the file layer knows.
pub fn placed_at<T>(offset: usize, read: Result<T, CallFault>) -> Result<T, Fault>
    ensures { result ≡ placed_result offset read }
{
    read.map_err(|fault| fault.at(offset))
}

// Whether the calls in `tail`, the end of the file, are sound: if not, the first fault.
fn check_calls(bytes: &[u8], tail: &[u8]) -> Result<(), Fault>
    requires { length tail.now ≤ length bytes.now }
    ensures { MatchResult result (λ _. calls_fault (length bytes.now - length tail.now) 0 tail.now ≡ None) (λ e. calls_fault (length bytes.now - length tail.now) 0 tail.now ≡ Some e) }
{
    let mut left = tail;
    while let [letter, numbers @ ..] = left {
        let place = bytes.len() - left.len();
        let (_, after) = placed_at(place, read_call(char::from(*letter), numbers))?;
        left = after;
    }
    Ok(())
}

// Reads a whole file. Where memory runs out, the rest is still checked: a fault goes before want of memory.
pub fn read(heap: Global, bytes: &[u8]) -> Result<Schedule, ReadError>
    ensures answers_the_reading { AnswersTheReading bytes.now result }
    ensures reads_the_layout { ReadsTheLayout bytes.now }
    ensures faults_where_it_breaks_off { FaultsWhereItBreaksOff bytes.now }
{
    let (end, mut rest) = read_header(bytes)?;
    let mut calls = Vec::new(heap);
    // The loop of `check_calls` once more: a step for both, which tells the end of the file by an `Option`, takes
    // a sixth to a third more time, above 1.2 times the twin's, which this form meets.
    while let [letter, numbers @ ..] = rest {
        let offset = bytes.len() - rest.len();
        let (call, after) = placed_at(offset, read_call(char::from(*letter), numbers))?;
        if let Err(error) = calls.push(call) {
            check_calls(bytes, after)?;
            return Err(error.into());
        }
        rest = after;
    }
    Ok(Schedule { end, calls })
}

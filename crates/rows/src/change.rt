// Changes of a row: each answers the row's new count, and leaves what is behind the new row as it was.
// They work in memory that the caller lends, with its count, so that no row needs a heap; `Row` keeps both together.
ghost use Rattle.std.specs.Prelude.{◌≡◌, length, take, drop};
ghost use Rattle.rows.specs.Rows.{in_front, without, put_answer, put_memory};

use crate::front::row_len;
use crate::order::TotalOrder;
use crate::refusal::Refusal;
use crate::search::place;
use crate::shift::{close, open};

// Places a record before the first greater one. Where the row fills the memory it refuses, and nothing changes.
pub fn put<T: TotalOrder>(memory: &mut [T], count: usize, item: T) -> Result<usize, Refusal>
    ensures answer { result ≡ put_answer memory.old count }
    ensures after { memory.new ≡ put_memory T.earlier memory.old count item }
{
    let end = row_len(memory, count);
    if end == memory.len() {
        return Err(Refusal::Full);
    }
    let at = place(memory, count, &item);
    open(memory, at, end, item);
    Ok(end + 1)
}

// Drops every record from a place on: nothing, where the row ends before it.
pub fn cut<T>(memory: &[T], count: usize, place: usize) -> usize
    ensures { result ≡ length (take place (take count memory.now)) }
{
    row_len(memory, count).min(place)
}

// Drops the first records: all, where the row has no more than these.
pub fn shed<T: Copy>(memory: &mut [T], count: usize, gone: usize) -> usize
    ensures answer { result ≡ length (drop gone (take count memory.old)) }
    ensures after { memory.new ≡ in_front (drop gone (take count memory.old)) memory.old }
{
    let end = row_len(memory, count);
    let gone = gone.min(end);
    close(memory, 0, gone, end);
    end - gone
}

// Drops the record at a place: nothing, where the row ends before it.
pub fn remove<T: Copy>(memory: &mut [T], count: usize, place: usize) -> usize
    ensures answer { result ≡ length (without place (take count memory.old)) }
    ensures after { memory.new ≡ in_front (without place (take count memory.old)) memory.old }
{
    let end = row_len(memory, count);
    if place >= end {
        return end;
    }
    close(memory, place, 1, end);
    end - 1
}

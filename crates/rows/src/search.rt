// Searches in a row: places of records, and the least record. `place`, `find` and `find_last` take memory and count as the
// changes do, so that who lends both hands the same to all.
ghost use Rattle.std.specs.Prelude.{◌≡◌, take};
ghost use Rattle.rows.specs.Rows.{place_of, first_of, last_of, lesser, least};

use crate::front::row;
use crate::order::{TotalOrder, alike};

// The place of the first record greater than this one, or the row's end.
pub fn place<T: TotalOrder>(memory: &[T], count: usize, item: &T) -> usize
    ensures { result ≡ place_of T.earlier item.now (take count memory.now) }
{
    let row = row(memory, count);
    row.iter()
        .position(|held| item.before(held))
        .unwrap_or(row.len())
}

// The place of the first record that equals this one.
pub fn find<T: TotalOrder>(memory: &[T], count: usize, item: &T) -> Option<usize>
    ensures { result ≡ first_of T.earlier item.now (take count memory.now) }
{
    row(memory, count).iter().position(|held| alike(item, held))
}

// The place of the last record that equals this one.
pub fn find_last<T: TotalOrder>(memory: &[T], count: usize, item: &T) -> Option<usize>
    ensures { result ≡ last_of T.earlier item.now (take count memory.now) }
{
    row(memory, count)
        .iter()
        .rposition(|held| alike(item, held))
}

// The lesser of two records, either of which may be missing.
pub fn lesser<T: TotalOrder>(one: Option<T>, other: Option<T>) -> Option<T>
    ensures { result ≡ lesser T.earlier one other }
{
    match (one, other) {
        (Some(one), Some(other)) => Some(if other.before(&one) { other } else { one }),
        (one, other) => one.or(other),
    }
}

// The least record of a row, if it has any.
pub fn least<T: TotalOrder>(row: &[T]) -> Option<T>
    ensures { result ≡ least T.earlier row.now }
{
    row.iter()
        .rfold(None, |best, item| lesser(Some(*item), best))
}

// Rows of bytes: empty and full ones, counts beyond the memory, places past the end, and one that owns its memory.
ghost use Rattle.std.specs.Prelude.{nat_lt};
ghost use Rattle.rows.specs.Numbers.{total_numbers};

use crate::*;

impl TotalOrder for u8 {
    ghost earlier = { nat_lt };

    ghost total = { total_numbers };

    fn before(&self, other: &u8) -> bool {
        self < other
    }
}

#[test]
fn an_empty_row_finds_nothing(rt: HostRuntime) {
    let memory = [5, 5];
    assert!(rt; place(&memory, 0, &5) == 0);
    assert!(rt; find(&memory, 0, &5).is_none());
    assert!(rt; find_last(&memory, 0, &5).is_none());
    assert!(rt; least(row(&memory, 0)).is_none());
}

#[test]
fn a_record_goes_before_the_first_greater_one(rt: HostRuntime) {
    let mut memory = [3, 5, 9, 8];
    assert!(rt; matches!(put(&mut memory, 2, 3), Ok(3)));
    assert!(rt; memory == [3, 3, 5, 8]);
}

#[test]
fn a_full_row_refuses(rt: HostRuntime) {
    let mut memory = [3, 5];
    assert!(rt; matches!(put(&mut memory, 2, 4), Err(Refusal::Full)));
    assert!(rt; matches!(put(&mut memory, 7, 4), Err(Refusal::Full)));
    assert!(rt; memory == [3, 5]);
    assert!(rt; u8::from(Refusal::Full) == 19);
}

#[test]
fn nothing_is_dropped_past_the_end(rt: HostRuntime) {
    let mut memory = [3, 5, 9];
    assert!(rt; cut(&memory, 7, 7) == 3);
    assert!(rt; remove(&mut memory, 2, 2) == 2);
    assert!(rt; shed(&mut memory, 2, 7) == 0);
    assert!(rt; memory == [3, 5, 9]);
}

#[test]
fn a_row_puts_behind_a_place_until_it_is_full(rt: HostRuntime) {
    let mut row: Row<u8, 4> = Row::empty(0);
    row.push(9);
    assert!(rt; matches!(row.put_from(1, 5), Ok(())));
    assert!(rt; matches!(row.put_from(1, 3), Ok(())));
    assert!(rt; matches!(row.put_from(7, 1), Ok(())));
    assert!(rt; matches!(row.put_from(0, 2), Err(Refusal::Full)));
    row.push(2);
    assert!(rt; row.as_slice() == [9, 3, 5, 1].as_slice());
    row.remove(0);
    row.cut(2);
    row.shed(1);
    assert!(rt; row.as_slice() == [5].as_slice() && row.len() == 1);
}

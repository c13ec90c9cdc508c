// Shifts of a part of a memory: a gap opened for a record, and a gap closed.
ghost use Rattle.std.specs.Prelude.{◌≡◌, ◌+◌, ◌<◌, ◌≤◌, length};
ghost use Rattle.rows.specs.Rows.{opened, closed};

// Moves the records from `at` to `end` one place on, and writes one into the gap.
pub(crate) fn open<T: Copy>(memory: &mut [T], at: usize, end: usize, item: T)
    requires { (at ≤ end) × (end < length memory.old) }
    ensures { memory.new ≡ opened memory.old at end item }
{
    memory.copy_within(at..end, at + 1);
    memory[at] = item;
}

// Drops `gone` records at a place of the row that ends at `end`, and moves up what follows.
pub(crate) fn close<T: Copy>(memory: &mut [T], at: usize, gone: usize, end: usize)
    requires { (at + gone ≤ end) × (end ≤ length memory.old) }
    ensures { memory.new ≡ closed memory.old at gone end }
{
    memory.copy_within(at + gone..end, at);
}

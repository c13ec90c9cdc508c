// The row that lies in front of a memory.
ghost use Rattle.std.specs.Prelude.{◌≡◌, ◌≤◌, length, take};

// How many records the row has: a count beyond the memory is cut to it.
pub(crate) fn row_len<T>(memory: &[T], count: usize) -> usize
    ensures len { result ≡ length (take count memory.now) }
    ensures within { result ≤ length memory.now }
{
    memory.len().min(count)
}

// The records of the row.
pub fn row<T>(memory: &[T], count: usize) -> &[T]
    ensures { result.now ≡ take count memory.now }
{
    let end = row_len(memory, count);
    &memory[0..end]
}

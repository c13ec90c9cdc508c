// A row that owns its memory.
ghost use Rattle.std.specs.Prelude.{◌≡◌, ◌≤◌, length};
ghost use Rattle.std.specs.Bool.{⊤};

use std::alloc::AllocError;

#[tactic(auto, unfolding(crate::specs::Held::held))]
mod calls;

// N places, of which the first `count` hold the records.
pub struct Row<T, const N: usize> {
    memory: [T; N],
    count: usize,
    ghost fits: { count ≤ N },
    ghost sized: { length memory ≡ N },
}

// By hand: over a ghost field and a type parameter `Clone` is not derived.
impl<T: Copy, const N: usize> Clone for Row<T, N> {
    ghost is_clone = { λ row copy. copy ≡ row };

    ghost is_infallible = { λ _. ⊤ };

    fn clone(&self) -> Result<Row<T, N>, AllocError> {
        Ok(*self)
    }
}

impl<T: Copy, const N: usize> Copy for Row<T, N> {}

// Copies of a short list.
ghost use Rattle.std.specs.Prelude.{◌≡◌};

use super::ShortList;
use std::alloc::AllocError;

// Written out, as none is derived beside a ghost field where `T` is a parameter. It never fails.
impl<T: Copy, const N: usize> Clone for ShortList<T, N> {
    ghost is_clone = { λ list copy. copy ≡ list };

    ghost is_infallible = { λ _. Unit };

    fn clone(&self) -> Result<Self, AllocError> {
        Ok(*self)
    }
}

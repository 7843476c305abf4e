// A list of at most so many items, in memory for as many.
ghost use Rattle.std.specs.Prelude.{◌≡◌, ◌≤◌, ⊤, length};

use std::alloc::AllocError;

/// A list of at most `N` items. Its memory holds `N` of them, of which the first `count` are the list's. It is for places where
/// no call may fail for want of memory and a copy is wanted, so that a `Vec` does not do.
pub struct Few<T, const N: usize> {
    // First, so that it lies beside the first items: what reads one of many lists touches one line of the cache.
    pub(crate) count: usize,
    pub(crate) items: [T; N],
    ghost memory: { length items ≡ N },
    ghost few: { count ≤ N },
}

// Written out, since a derived one would copy item by item.
impl<T: Copy, const N: usize> Clone for Few<T, N> {
    ghost is_clone = { λ s r. r ≡ s };

    ghost is_infallible = { λ _. ⊤ };

    fn clone(&self) -> Result<Few<T, N>, AllocError> {
        Ok(*self)
    }
}

impl<T: Copy, const N: usize> Copy for Few<T, N> {}

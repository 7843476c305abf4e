// A queue in a ring of memory: elements are added at its end and removed from its front. The library's `VecDeque` was tried:
// a commit takes a third longer over it (48 in place of 35 ns in `Flat`, 170 in place of 130 ns with 16 writes in `Packed`).
ghost use Rattle.std.specs.Prelude.{◌≤◌, vec_len};

pub mod ops;

#[derive(Drop)]
pub(crate) struct Ring<T> {
    memory: Vec<T>,
    // Where the first element is, and how many there are.
    start: usize,
    count: usize,
    ghost begins: { start ≤ vec_len memory },
    ghost room: { count ≤ vec_len memory },
}

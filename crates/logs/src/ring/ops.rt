// What a ring does.
ghost use Rattle.std.specs.Prelude.{◌≡◌, ◌+◌, ◌-◌, ◌<◌, ◌≤◌, min, [], ◌∷◌, ◌++◌, length, take, drop, vec_len, slice_index_or};
ghost use Rattle.logs.specs.Window.{place_after};
ghost use Rattle.logs.specs.RingModel.{ring_items, ring_size};

use super::Ring;

// The place that many further on, in a ring of that size.
fn place_after(size: usize, start: usize, by: usize) -> usize
    requires begins { start ≤ size }
    requires within { by ≤ size }
    ensures { result ≡ place_after size start by }
{
    let to_end = size - start;
    if by < to_end { start + by } else { by - to_end }
}

// Writes the items over those from the place on.
fn overwrite<T: Copy>(memory: &mut [T], place: usize, items: &[T])
    requires { place + length items.now ≤ length memory.old }
    ensures { memory.new ≡ take place memory.old ++ (items.now ++ drop (place + length items.now) memory.old) }
{
    memory[place..place + items.len()].copy_from_slice(items);
}

impl<T: Copy> Ring<T> {
    // An empty ring in that memory, of which it uses at most the limit.
    pub(crate) fn new(mut memory: Vec<T>, limit: usize) -> Ring<T>
        ensures items { ring_items result ≡ [] }
        ensures size { ring_size result ≡ min (vec_len memory) limit }
    {
        memory.truncate(limit);
        Ring {
            memory,
            start: 0,
            count: 0,
        }
    }

    // How many elements there is memory for.
    pub(crate) fn size(&self) -> usize
        ensures { result ≡ ring_size self.now }
    {
        self.memory.len()
    }

    pub(crate) fn len(&self) -> usize
        ensures value { result ≡ length (ring_items self.now) }
        ensures bound { result ≤ ring_size self.now }
    {
        self.count
    }

    // The element at that place, counted from the front.
    pub(crate) fn at(&self, place: usize) -> &T
        requires { place < length (ring_items self.now) }
        ensures { result.now ≡ slice_index_or (ring_items self.now) place result.now }
    {
        &self.memory[place_after(self.memory.len(), self.start, place)]
    }

    // Adds an element at the end.
    pub(crate) fn push(&mut self, item: T)
        requires { length (ring_items self.old) < ring_size self.old }
        ensures items { ring_items self.new ≡ ring_items self.old ++ (item ∷ []) }
        ensures len { length (ring_items self.new) ≡ length (ring_items self.old) + 1 }
        ensures size { ring_size self.new ≡ ring_size self.old }
    {
        let end = place_after(self.memory.len(), self.start, self.count);
        self.memory[end] = item;
        self.count += 1;
    }

    // Adds elements at the end: in one piece, or one by one where they go on from the memory's beginning.
    pub(crate) fn extend(&mut self, items: &[T])
        requires { length (ring_items self.old) + length items.now ≤ ring_size self.old }
        ensures items { ring_items self.new ≡ ring_items self.old ++ items.now }
        ensures size { ring_size self.new ≡ ring_size self.old }
    {
        let end = place_after(self.memory.len(), self.start, self.count);
        if items.len() <= self.memory.len() - end {
            overwrite(self.memory.as_mut_slice(), end, items);
            self.count += items.len();
        } else {
            for item in items {
                self.push(*item);
            }
        }
    }

    // Removes that many elements from the front.
    pub(crate) fn remove_front(&mut self, count: usize)
        requires { count ≤ length (ring_items self.old) }
        ensures items { ring_items self.new ≡ drop count (ring_items self.old) }
        ensures size { ring_size self.new ≡ ring_size self.old }
    {
        self.start = place_after(self.memory.len(), self.start, count);
        self.count -= count;
    }
}

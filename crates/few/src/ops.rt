// What a short list does.
ghost use Rattle.std.specs.Prelude.{◌≡◌, ◌≤◌, ◌==◌, [], ◌∷◌, length, take, is_ok, slice_get, slice_set};
ghost use Rattle.few.specs.Lists.{few_items, has_room, inserted, Gathers};

use crate::list::Few;

/// The list has no memory for one more item.
#[derive(Clone, Copy, PartialEq, Eq, Debug)]
pub struct Full;

impl<T: Copy, const N: usize> Few<T, N> {
    /// The empty list. The blank stands in memory that no item is in.
    pub fn new(blank: T) -> Few<T, N>
        ensures { few_items result ≡ [] }
    {
        Few {
            items: [blank; N],
            count: 0,
        }
    }

    /// The first items, as many as there is memory for.
    pub fn from_slice(blank: T, items: &[T]) -> Few<T, N>
        ensures { few_items result ≡ take N items.now }
    {
        let count = items.len().min(N);
        let mut memory = [blank; N];
        let front = &mut memory[..];
        front[0..count].copy_from_slice(&items[0..count]);
        Few {
            items: memory,
            count,
        }
    }

    /// What the question answers at 0, 1 and so on, as far as it answers and there is memory.
    pub fn gather<F: Fn(usize) -> Option<T>>(blank: T, question: F) -> Few<T, N>
        requires { F.IsAlwaysCallable question }
        ensures { Gathers (F.post question) N 0 (few_items result) }
    {
        let mut items = [blank; N];
        for i in 0..N {
            let Some(item) = question(i) else {
                return Few { items, count: i };
            };
            items[i] = item;
        }
        Few { items, count: N }
    }

    pub fn as_slice(&self) -> &[T]
        ensures { result.now ≡ few_items self.now }
    {
        let memory = &self.items[..];
        &memory[0..self.count]
    }

    pub fn len(&self) -> usize
        ensures value { result ≡ length (few_items self.now) }
        ensures within { result ≤ N }
    {
        self.as_slice().len()
    }

    pub fn is_empty(&self) -> bool
        ensures { result ≡ (length (few_items self.now) == 0) }
    {
        self.count == 0
    }

    /// The item at a place, counted from 0.
    pub fn get(&self, place: usize) -> Option<T>
        ensures { result ≡ slice_get (few_items self.now) place }
    {
        self.as_slice().get(place).copied()
    }

    /// Sets the item at a place, and gives the one that was there; past the end it changes nothing.
    pub fn replace(&mut self, place: usize, item: T) -> Option<T>
        ensures old { result ≡ slice_get (few_items self.old) place }
        ensures after { few_items self.new ≡ slice_set (few_items self.old) place item }
    {
        if self.count <= place {
            return None;
        }
        let old = self.items[place];
        self.items[place] = item;
        Some(old)
    }

    /// Puts an item in at a place, or at the end where the place is past it.
    pub fn insert(&mut self, place: usize, item: T) -> Result<(), Full>
        ensures answer { is_ok result ≡ has_room N (few_items self.old) }
        ensures after { few_items self.new ≡ inserted N (few_items self.old) place item }
    {
        if self.count == N {
            return Err(Full);
        }
        let at = place.min(self.count);
        self.items.copy_within(at..self.count, at + 1);
        self.items[at] = item;
        self.count += 1;
        Ok(())
    }

    /// Adds an item at the end.
    pub fn push(&mut self, item: T) -> Result<(), Full>
        ensures answer { is_ok result ≡ has_room N (few_items self.old) }
        ensures after { few_items self.new ≡ inserted N (few_items self.old) (length (few_items self.old)) item }
    {
        self.insert(self.count, item)
    }
}

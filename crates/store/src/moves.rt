// Closing the gaps in a row, by exchanges, so that nothing in it is lost.
ghost use Rattle.std.specs.Prelude.{◌≡◌, ◌≤◌, length, take, vec_len};
ghost use Rattle.std.specs.List.Sorted.{IsPermutation};
ghost use Rattle.store.specs.Rows.{unmarked};

// Moves what is not marked, of as many items as there are marks, to the front, in order, and answers how many those are.
pub(crate) fn compact<T>(items: &mut Vec<T>, gone: &[bool]) -> usize
    requires marks { length gone.now ≤ vec_len items.old }
    ensures bound { result ≤ length gone.now }
    ensures front { take result items.new.items ≡ unmarked gone.now (take (length gone.now) items.old.items) }
    ensures shuffled { IsPermutation items.old.items items.new.items }
    ensures within { result ≤ length items.new.items }
{
    let mut end = 0;
    for (i, is_gone) in gone.iter().enumerate() {
        if !*is_gone {
            items.swap(end, i);
            end += 1;
        }
    }
    end
}

// Writes: an item, and the value that it gets or that it is removed.
ghost use Rattle.std.specs.Prelude.{◌≡◌, ◌+◌, true, is_some, IfOk, if◌then◌else◌};
ghost use Rattle.words.specs.Writes.{change_of, first_write, after_write, leading, change_word, change_fits, write_fits, all_fit, fit_from, valid_writes};

use crate::bits::{Kind, fits, has_kind, is_value, load, make_word, value, value_bits};
use std::alloc::{AllocError, Global};

#[derive(Clone, Copy, PartialEq, Eq, Debug)]
pub enum Change {
    Set(i32),
    Remove,
}

#[derive(Clone, Copy, PartialEq, Eq, Debug)]
pub struct Write {
    pub item: u32,
    pub change: Change,
}

// The change that a word says, if any.
pub(crate) fn read_change(word: u32) -> Option<Change>
    ensures { result ≡ change_of word }
{
    if has_kind(word, Kind::Value) {
        Some(Change::Set(value(load(word))))
    } else if word == make_word(Kind::Removal, 0) {
        Some(Change::Remove)
    } else {
        None
    }
}

/// The write that begins the words and the words after it, or none and the words as they were: a pair and no option of a pair,
/// so that a caller who finds no write goes on with the rest that it has.
pub fn read_write(words: &[u32]) -> (Option<Write>, &[u32])
    ensures write { result.0 ≡ first_write words.now }
    ensures rest { result.1.now ≡ after_write words.now }
    ensures part { result.1.ref_ptr ≡ (words.entry.ref_ptr.0, words.entry.ref_ptr.1 + (if is_some result.0 then 8 else 0)) }
{
    let [item, change, rest @ ..] = words else {
        return (None, words);
    };
    if !has_kind(*item, Kind::Item) {
        return (None, words);
    }
    match read_change(*change) {
        Some(change) => (
            Some(Write {
                item: load(*item),
                change,
            }),
            rest,
        ),
        None => (None, words),
    }
}

/// The writes that the words begin with, as far as they go.
pub fn read_writes(heap: Global, words: &[u32]) -> Result<Vec<Write>, AllocError>
    ensures { IfOk result (λ v. v.items ≡ leading words.now) }
{
    let mut writes = Vec::new(heap);
    let mut rest = words;
    while let (Some(write), after) = read_write(rest) {
        writes.push(write)?;
        rest = after;
    }
    Ok(writes)
}

// The word of a change.
pub(crate) fn change_bits(change: Change) -> u32
    requires { change_fits change ≡ true }
    ensures { result ≡ change_word change }
{
    match change {
        Change::Set(value) => make_word(Kind::Value, value_bits(value)),
        Change::Remove => make_word(Kind::Removal, 0),
    }
}

fn is_change(change: Change) -> bool
    ensures { result ≡ change_fits change }
{
    match change {
        Change::Set(value) => is_value(value),
        Change::Remove => true,
    }
}

/// Whether item and value are in range.
pub fn is_in_range(write: Write) -> bool
    ensures { result ≡ write_fits 0 write }
{
    fits(write.item, 0) && is_change(write.change)
}

/// Whether each write is in range, whatever the order of the items.
pub fn all_fit(writes: &[Write]) -> bool
    ensures { result ≡ all_fit writes.now }
{
    writes.iter().all(|write| is_in_range(*write))
}

// Whether the writes are in range, with items that rise strictly.
fn do_rise(writes: &[Write]) -> bool
    ensures { result ≡ fit_from 0 writes.now }
{
    let Some(first) = writes.first() else {
        return true;
    };
    is_in_range(*first)
        && writes.is_sorted_by(|write, next| write.item < next.item && is_in_range(*next))
}

// Whether these can be the writes of one edit: 1 to 16, in range, by rising item.
pub(crate) fn are_valid(writes: &[Write]) -> bool
    ensures { result ≡ valid_writes writes.now }
{
    1 <= writes.len() && writes.len() <= 16 && do_rise(writes)
}

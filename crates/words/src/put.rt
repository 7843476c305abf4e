// Words put into a buffer from its first word on, where words can hold the numbers.
ghost use Rattle.std.specs.Prelude.{◌≡◌, ◌*◌, ◌≤◌, true, ◌∷◌, ◌++◌, map, length, drop, nat_le};
ghost use Rattle.words.specs.Bits.{word, every};
ghost use Rattle.words.specs.Writes.{writes_words, all_fit};
ghost use Rattle.words.specs.Pages.{page_words, has_words};
ghost use Rattle.words.specs.Encoded.{reply, put_answer, put_after, entry_value, closing_value};

use crate::bits::{Kind, make_head, make_word};
use crate::changes::{Write, change_bits};
use crate::encode::{ClosingParts, EntryParts, Refusal};

// The words of the writes, from the buffer's first word on. They are put by index, here and below: where what is written is
// zipped to `iter_mut` or to `chunks_exact_mut`, a proof knows how long the buffer is afterwards, and none of its words.
fn put_writes(out: &mut [u32], writes: &[Write])
    requires room { 2 * length writes.now ≤ length out.old }
    requires fit { all_fit writes.now ≡ true }
    ensures { out.new ≡ writes_words writes.now ++ drop (2 * length writes.now) out.old }
{
    for (i, write) in writes.iter().enumerate() {
        out[2 * i] = make_word(Kind::Item, write.item);
        out[2 * i + 1] = change_bits(write.change);
    }
}

// Three words and then those of the writes, from the buffer's first word on.
pub(crate) fn put_with_writes(
    out: &mut [u32],
    front: [u32; 3],
    writes: &[Write],
) -> Result<usize, Refusal>
    requires { all_fit writes.now ≡ true }
    ensures answer { reply result ≡ put_answer true (front ++ writes_words writes.now) out.old }
    ensures after { out.new ≡ put_after true (front ++ writes_words writes.now) out.old }
{
    let count = front.len() + 2 * writes.len();
    if out.len() < count {
        return Err(Refusal::TooShort);
    }
    out[..3].copy_from_slice(&front);
    put_writes(&mut out[3..], writes);
    Ok(count)
}

// The words of an entry page, from the buffer's first word on.
pub(crate) fn put_entry(out: &mut [u32], entry: EntryParts<'_>) -> Result<usize, Refusal>
    requires { has_words (entry_value entry) ≡ true }
    ensures answer { reply result ≡ put_answer true (page_words (entry_value entry.entry)) out.old }
    ensures after { out.new ≡ put_after true (page_words (entry_value entry.entry)) out.old }
{
    let head = make_head(Kind::Entry, entry.site, entry.writes.len() as u32);
    let version = make_word(Kind::Version, entry.version);
    let ticket = make_word(Kind::Ticket, entry.ticket);
    put_with_writes(out, [head, version, ticket], entry.writes)
}

// The words of known numbers, from the buffer's first word on.
fn put_known(out: &mut [u32], known: &[u32])
    requires room { length known.now ≤ length out.old }
    requires fit { every (λ k. nat_le k 268435455) known.now ≡ true }
    ensures { out.new ≡ map (word 11) known.now ++ drop (length known.now) out.old }
{
    for (i, number) in known.iter().enumerate() {
        out[i] = make_word(Kind::Known, *number);
    }
}

// The words of a closing page, from the buffer's first word on.
pub(crate) fn put_closing(out: &mut [u32], closing: ClosingParts<'_>) -> Result<usize, Refusal>
    requires { has_words (closing_value closing) ≡ true }
    ensures answer { reply result ≡ put_answer true (page_words (closing_value closing.entry)) out.old }
    ensures after { out.new ≡ put_after true (page_words (closing_value closing.entry)) out.old }
{
    let count = 3 + closing.known.len();
    if out.len() < count {
        return Err(Refusal::TooShort);
    }
    out[0] = make_word(Kind::Closing, closing.known.len() as u32);
    out[1] = make_word(Kind::Version, closing.version);
    out[2] = make_word(Kind::Place, closing.place);
    put_known(&mut out[3..], closing.known);
    Ok(count)
}

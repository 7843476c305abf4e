// Numbers that a word writes.
ghost use Rattle.std.specs.Prelude.{◌≡◌, ◌+◌, ◌%◌, ◌^◌, ◌≤◌, IfOk, Some, vec_items};
ghost use Rattle.std.specs.Option.{option_map};
ghost use Rattle.text.specs.Numbers.{below, digit_value, digit_of, more_of, number_of, decimal_of, positive_of, negative_of, signed_of, hex_word_of, hex_words_of};
ghost use Rattle.text.specs.Split.{words};

use crate::split::Words;
use std::alloc::{AllocError, Global};

// The value of a digit of the base. The digits above 9 are upper-case letters.
fn digit(byte: u8, base: u32) -> Option<u32>
    requires { base ≤ 16 }
    ensures { result ≡ digit_of base byte }
{
    let value = match byte {
        b'0'..=b'9' => byte - b'0',
        b'A'..=b'F' => byte - b'A' + 10,
        _ => return None,
    };
    let value = u32::from(value);
    (value < base).then_some(value)
}

// The number with one more digit, if the byte is a digit and 32 bits hold the result.
fn with_digit(number: u32, byte: u8, base: u32) -> Option<u32>
    requires { base ≤ 16 }
    ensures { result ≡ more_of base number byte }
{
    let digit = digit(byte, base)?;
    number.checked_mul(base)?.checked_add(digit)
}

// The number that the digits write, if there are only digits and 32 bits hold it. A fold that can fail would say no more.
fn number(digits: &[u8], base: u32) -> Option<u32>
    requires { (2 ≤ base) × (base ≤ 16) }
    ensures { result ≡ number_of base digits.now }
{
    let mut number = 0;
    for byte in digits {
        number = with_digit(number, *byte, base)?;
    }
    Some(number)
}

/// The number that the word writes in decimal digits, if it has at least one, nothing else, and 32 bits hold it.
pub fn decimal(word: &[u8]) -> Option<u32>
    ensures { result ≡ decimal_of word.now }
{
    if word.is_empty() {
        return None;
    }
    number(word, 10)
}

// The number as a signed one, if 32 bits hold it. Apart from `negative`: each states its own bound, and one with a sign would
// match on it.
fn positive(number: u32) -> Option<i32>
    ensures { result ≡ positive_of (below (2 ^ 31) number) }
{
    i32::try_from(number).ok()
}

// The negative of the number, if 32 bits hold it.
fn negative(number: u32) -> Option<i32>
    ensures { result ≡ negative_of (below (2 ^ 31 + 1) number) }
{
    i32::try_from(-i64::from(number)).ok()
}

/// The number that the word writes in decimal digits, after a `-` where it is negative, if 32 bits hold it.
pub fn signed(word: &[u8]) -> Option<i32>
    ensures { result ≡ signed_of word.now }
{
    let [first, digits @ ..] = word else {
        return None;
    };
    if *first == b'-' {
        negative(decimal(digits)?)
    } else {
        positive(decimal(word)?)
    }
}

/// The value of a word of exactly eight hexadecimal digits, the letters upper-case.
pub fn hex_word(word: &[u8]) -> Option<u32>
    ensures { result ≡ hex_word_of word.now }
{
    if word.len() != 8 {
        return None;
    }
    number(word, 16)
}

/// The words that the text spells, or none where a word of it is not one of eight hexadecimal digits.
pub fn hex_words(heap: Global, text: &[u8]) -> Result<Option<Vec<u32>>, AllocError>
    ensures { IfOk result (λ o. option_map vec_items o ≡ hex_words_of (words text.now)) }
{
    let mut values = Vec::new(heap);
    for word in Words(text) {
        let Some(value) = hex_word(word) else {
            return Ok(None);
        };
        values.push(value)?;
    }
    Ok(Some(values))
}

// The upper-case hexadecimal digit of the low four bits.
fn hex_digit(word: u32) -> u8
    ensures { digit_value result ≡ word % 16 }
{
    let digit = (word % 16) as u8;
    if digit < 10 {
        b'0' + digit
    } else {
        b'A' + (digit - 10)
    }
}

/// The eight hexadecimal digits of the word, the letters upper-case: what `hex_word` reads as that word. For those who print
/// words.
pub fn hex_digits(word: u32) -> [u8; 8]
    ensures { hex_word_of result ≡ Some word }
{
    std::array::from_fn(|place| hex_digit(word >> (28 - 4 * place as u32)))
}

// The text that a word stands for.
ghost use Rattle.std.specs.Prelude.{◌≡◌, ◌<◌, true, is_some, IfSome, IfOk, IfErr, Some};
ghost use Rattle.std.specs.Iterator.{YieldsFirst, item_count};
ghost use Rattle.scenario.specs.declared.reading.TextError.TheVariants.{NoMemory};
ghost use Rattle.scenario.specs.Refusals.{refusal};
ghost use Rattle.scenario.specs.Escapes.{nibble, paired, chars, read, decoded};

use crate::writing::is_plain;
use std::alloc::{AllocError, Global};

#[derive(Clone, Copy, Debug, PartialEq, Eq)]
pub enum TextError {
    BadText,
    NoMemory,
}

impl From<AllocError> for TextError {
    ghost from_gives = { λ _ r. r ≡ NoMemory };

    fn from(_: AllocError) -> TextError {
        TextError::NoMemory
    }
}

// The bytes that a text word stands for.
pub fn decode(heap: Global, word: &[u8]) -> Result<Vec<u8>, TextError>
    ensures value { IfOk result (λ v. decoded word.now ≡ Some v.items) }
    ensures refused { IfErr result (λ e. e ≡ refusal (decoded word.now)) }
{
    match word {
        [] => Err(TextError::BadText),
        [b'%'] => Ok(Vec::new(heap)),
        // Before any memory is asked for, so that a bad word is refused as bad even where there is none.
        _ if !is_text(word) => Err(TextError::BadText),
        _ => Ok(unescape(heap, word)?),
    }
}

// Whether each character can be read.
fn is_text(word: &[u8]) -> bool
    ensures { result ≡ is_some (read word.now) }
{
    Unescaped(word).all(|b| b.is_some())
}

fn unescape(heap: Global, word: &[u8]) -> Result<Vec<u8>, AllocError>
    requires { is_some (read word.now) ≡ true }
    ensures { IfOk result (λ v. read word.now ≡ Some v.items) }
{
    // All the room at once, since a text is no longer than its word.
    let mut text = Vec::with_capacity(heap, word.len())?;
    for byte in Unescaped(word) {
        text.push_reserved(byte.unwrap());
    }
    Ok(text)
}

// The byte that each character of a word stands for, and none for one that cannot be read.
#[derive(Drop)]
struct Unescaped<'a>(&'a [u8]);

impl Iterator for Unescaped<'_> {
    type Item = Option<u8>;

    ghost next_gives = { YieldsFirst (λ s. chars s.0.now) };

    ghost remaining = { item_count (λ s. chars s.0.now) };

    fn next(&mut self) -> Option<Option<u8>> {
        let (first, rest) = self.0.split_first()?;
        let (byte, rest) = match (*first, rest) {
            (b'%', [high, low, rest @ ..]) => (hex_byte(*high, *low), rest),
            // An arm of its own, so that no byte is compared with '%' twice.
            (b'%', _) => (None, rest),
            (b, _) => (is_plain(b).then_some(b), rest),
        };
        self.0 = rest;
        Some(byte)
    }
}

// The byte of two upper-case hex digits.
fn hex_byte(high: u8, low: u8) -> Option<u8>
    ensures { result ≡ paired (nibble high) (nibble low) }
{
    Some(16 * hex_value(high)? + hex_value(low)?)
}

// The value of an upper-case hex digit. `char::to_digit` would read small letters too.
fn hex_value(digit: u8) -> Option<u8>
    ensures value { result ≡ nibble digit }
    ensures within { IfSome result (λ v. v < 16) }
{
    match digit {
        b'0'..=b'9' => Some(digit - b'0'),
        b'A'..=b'F' => Some(digit - b'A' + 10),
        _ => None,
    }
}

// The word for a text.
ghost use Rattle.std.specs.Prelude.{◌≡◌, ◌+◌, ◌<◌, ◌≤◌, [], ◌∷◌, ◌++◌, is_ok, if◌then◌else◌, string_bytes, string_len, string_capacity};
ghost use Rattle.scenario.specs.Escapes.{plain, hex, written, spelt, encoded, ComesBack, OneWord};

use std::alloc::AllocError;

// Appends the word for a text.
#[tactic(auto, using(crate::proofs::Back::comes_back, crate::proofs::Back::one_word))]
pub fn encode(out: &mut String, text: &[u8]) -> Result<(), AllocError>
    ensures after { string_bytes out.new ≡ (if is_ok result then string_bytes out.old ++ encoded text.now else string_bytes out.old) }
    ensures laws { ComesBack × OneWord }
{
    match text {
        [] => out.push('%'),
        _ => spell(out, text),
    }
}

// Not the library's `percent_encode`: what stands for itself would be told twice, here as a set and in `reading` as a test.
fn spell(out: &mut String, text: &[u8]) -> Result<(), AllocError>
    ensures { string_bytes out.new ≡ (if is_ok result then string_bytes out.old ++ spelt text.now else string_bytes out.old) }
{
    // All the room at once, so that a refusal leaves nothing behind.
    let room = text.len().checked_mul(3).ok_or(AllocError)?;
    out.reserve(room)?;
    for b in text {
        put(out, *b);
    }
    Ok(())
}

// Appends what is written of one byte. A `write!` would promise nothing of what it leaves where it fails.
fn put(out: &mut String, b: u8)
    requires { string_len out.old + 3 ≤ string_capacity out.old }
    ensures after { string_bytes out.new ≡ string_bytes out.old ++ written b }
    ensures len { string_len out.new ≤ string_len out.old + 3 }
    ensures capacity { string_capacity out.old ≤ string_capacity out.new }
{
    if is_plain(b) {
        put_ascii(out, b);
    } else {
        put_ascii(out, b'%');
        put_ascii(out, hex_digit(b / 16));
        put_ascii(out, hex_digit(b % 16));
    }
}

fn put_ascii(out: &mut String, b: u8)
    requires ascii { b < 128 }
    requires room { string_len out.old + 1 ≤ string_capacity out.old }
    ensures after { string_bytes out.new ≡ string_bytes out.old ++ b ∷ [] }
    ensures len { string_len out.new ≡ string_len out.old + 1 }
    ensures capacity { string_capacity out.old ≤ string_capacity out.new }
{
    // There is room, so that this cannot fail.
    let _ = out.push(char::from(b));
}

// Whether a byte stands for itself.
pub(crate) fn is_plain(b: u8) -> bool
    ensures { result ≡ plain b }
{
    b.is_ascii_graphic() && b != b'%'
}

// The upper-case hex digit of a number below 16. `char::from_digit` gives small letters.
fn hex_digit(n: u8) -> u8
    requires { n < 16 }
    ensures value { result ≡ hex n }
    ensures within { result < 128 }
{
    if n < 10 { b'0' + n } else { b'A' + (n - 10) }
}

// Decimal numbers.
ghost use Rattle.std.specs.Prelude.{◌≡◌};
ghost use Rattle.scenario.specs.Numbers.{numeral, joined};

// The number that a word of digits writes, if it fits. Not `parse`, which takes a leading plus.
pub fn number(word: &[u8]) -> Option<u64>
    ensures { result ≡ numeral word.now }
{
    if word.is_empty() {
        return None;
    }
    // A `for`: tried as `try_fold`, and the proof did not close.
    let mut value = 0;
    for b in word {
        value = with_digit(value, *b)?;
    }
    Some(value)
}

fn with_digit(value: u64, b: u8) -> Option<u64>
    ensures { result ≡ joined value b }
{
    let digit = char::from(b).to_digit(10)?;
    value.checked_mul(10)?.checked_add(u64::from(digit))
}

// Bytes of the input as they are; those that do not print come as a question mark.
use std::alloc::AllocError;

// Not a Display: a formatter takes many times as long for each character.
pub fn push_printable(out: &mut String, bytes: &[u8]) -> Result<(), AllocError> {
    out.extend(bytes.iter().map(|b| shown(*b)))
}

fn shown(byte: u8) -> char {
    match byte {
        b' '..=b'~' => char::from(byte),
        _ => '?',
    }
}

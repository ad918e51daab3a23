// Making a name of bytes, and reading it.
ghost use Rattle.std.specs.Prelude.{◌≡◌, ◌≤◌, ℕ, true, length};
ghost use Rattle.paths.specs.Names.{dots, plain, named, name_of};

use super::Name;
use crate::bytes::copy;

// Whether no byte is a slash or zero.
fn is_plain(bytes: &[u8]) -> bool
    ensures { result ≡ plain bytes.now }
{
    bytes.iter().all(|b| *b != b'/' && *b != 0)
}

fn is_dots(bytes: &[u8]) -> bool
    ensures { result ≡ dots bytes.now }
{
    matches!(bytes, [] | [b'.'] | [b'.', b'.'])
}

impl Name {
    // The name that those bytes spell, if they may be one.
    pub fn new(bytes: &[u8]) -> Option<Name>
        ensures { result ≡ name_of bytes.now }
    {
        if bytes.len() > 255 || !is_plain(bytes) || is_dots(bytes) {
            return None;
        }
        let mut own = [0; 255];
        copy(&mut own, bytes);
        Some(Name {
            bytes: own,
            len: bytes.len(),
        })
    }

    pub fn bytes(&self) -> &[u8]
        ensures value { result.now ≡ self.now }
        ensures named { named result.now ≡ true }
        ensures within { length result.now ≤ 255 }
    {
        &self.bytes[..self.len]
    }
}

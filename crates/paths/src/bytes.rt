// Writing, cutting and comparing the bytes of a path, in a buffer of any size.
ghost use Rattle.std.specs.Prelude.{◌≡◌, ◌+◌, ◌<◌, ◌≤◌, ◌++◌, length, drop};
ghost use Rattle.paths.specs.Bytes.{grown, trimmed, key, keyed};

use std::cmp::Ordering;

// Writes a slash and the name at `len`.
pub(crate) fn extend(text: &mut [u8], len: usize, name: &[u8])
    requires { len + length name.now < length text.old }
    ensures { text.new ≡ grown text.old len name.now }
{
    let from = len + 1;
    let to = from + name.len();
    text[len] = b'/';
    text[from..to].copy_from_slice(name);
}

// Zeros from k on.
pub(crate) fn blank(text: &mut [u8], k: usize)
    requires { k ≤ length text.old }
    ensures { text.new ≡ trimmed text.old k }
{
    text[k..].fill(0);
}

// Writes one text over the front of another.
pub(crate) fn copy(to: &mut [u8], from: &[u8])
    requires { length from.now ≤ length to.old }
    ensures { to.new ≡ from.now ++ drop (length from.now) to.old }
{
    let n = from.len();
    to[..n].copy_from_slice(from);
}

fn key_of(b: u8) -> u8
    ensures { result ≡ key b }
{
    if b == b'/' { 0 } else { b }
}

// How two texts stand in order where a slash is the lowest byte.
pub(crate) fn order(t: &[u8], u: &[u8]) -> Ordering
    ensures { result ≡ keyed t.now u.now }
{
    for (a, b) in t.iter().zip(u) {
        // The same bytes need no keys: that is the quick way along a common beginning.
        if *a != *b && key_of(*a) != key_of(*b) {
            return key_of(*a).cmp(&key_of(*b));
        }
    }
    t.len().cmp(&u.len())
}

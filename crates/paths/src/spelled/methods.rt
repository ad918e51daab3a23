// Going up and down by a name, and the bytes.
ghost use Rattle.std.specs.Prelude.{◌≡◌, ℕ, ◌+◌, ◌<◌, ◌≤◌, true, min, [], ◌∷◌, length, IfSome};
ghost use Rattle.std.specs.Option.{option_map};
ghost use Rattle.paths.specs.Names.{named, good, up, last, render};
ghost use Rattle.paths.specs.Bytes.{slash_at};

use super::Spelled;
use crate::bytes::{blank, copy, extend};

impl<const N: usize> Spelled<N> {
    pub(crate) fn root() -> Self
        ensures { result ≡ [] }
    {
        Spelled {
            text: [0; N],
            len: 0,
            depth: 0,
        }
    }

    // The same names in a buffer of another size.
    pub(crate) fn resized<const M: usize>(&self) -> Spelled<M>
        requires { min N (length (render self.now)) ≤ M }
        ensures value { result ≡ self.now }
        ensures within { length (render self.now) ≤ N }
    {
        let mut text = [0; M];
        copy(&mut text, self.bytes());
        Spelled {
            text,
            len: self.len,
            depth: self.depth,
        }
    }

    // How many names.
    pub(crate) fn depth(&self) -> usize
        ensures { result ≡ length self.now }
    {
        self.depth
    }

    pub(crate) fn bytes(&self) -> &[u8]
        ensures value { result.now ≡ render self.now }
        ensures good { good self.now ≡ true }
        ensures within { length (render self.now) ≤ N }
    {
        // As a slice first: an array of N bytes is not cut in one step.
        let text = &self.text[..];
        &text[..self.len]
    }

    fn last_slash(&self) -> Option<usize>
        ensures { result ≡ slash_at self.now }
    {
        self.bytes().iter().rposition(|b| *b == b'/')
    }

    // The innermost name.
    pub(crate) fn last(&self) -> Option<&[u8]>
        ensures value { option_map (λ x. x.now) result ≡ last self.now }
        ensures named { IfSome result (λ x. (named x.now ≡ true) × (length x.now ≤ N)) }
    {
        let k = self.last_slash()?;
        Some(&self.bytes()[k + 1..])
    }

    pub(crate) fn push(&mut self, name: &[u8])
        requires named { named name.now ≡ true }
        requires room { length (render self.old) + length name.now < N }
        ensures { self.new ≡ name.now ∷ self.old }
    {
        extend(&mut self.text, self.len, name);
        self.len += 1 + name.len();
        self.depth += 1;
    }

    // The directory above "/" is "/".
    pub(crate) fn pop(&mut self)
        ensures { self.new ≡ up self.old }
    {
        let Some(k) = self.last_slash() else {
            return;
        };
        blank(&mut self.text, k);
        self.len = k;
        self.depth -= 1;
    }
}

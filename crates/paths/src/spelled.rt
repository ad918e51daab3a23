// Names spelled into N bytes, a slash before each, the outermost first. The bytes behind are zero, so that
// the names give the whole value back; "/" is no byte at all. Memory is fixed, so the bytes lie in the value, with their length.
pub mod methods;

use std::marker::Model;

#[derive(Clone, Copy)]
pub(crate) struct Spelled<const N: usize> {
    text: [u8; N],
    len: usize,
    depth: usize,
}

// Clauses see the names, the innermost first.
impl<const N: usize> Model for Spelled<N> {
    ghost use Rattle.std.specs.Prelude.{length, take};
    ghost use Rattle.std.proofs.Common.{sym};
    ghost use Rattle.paths.specs.Names.{Names, render};
    ghost use Rattle.paths.specs.Bytes.{parse, padded, Sound};

    ghost Value = { Names };

    ghost view = { λ s. parse (take s.len s.text) };

    ghost invariant = { λ s. Sound N s.text s.len s.depth };

    ghost inverse = { λ p. record { text = padded N p; len = length (render p); depth = length p } };

    ghost inverse_ok = { λ s h i. record { text = sym h.0 i; len = sym h.1 i; depth = sym h.3 i } };
}

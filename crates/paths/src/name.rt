// A name as a value: what may stand between two slashes, as long as a file system lets a name be. Memory is fixed, so
// its bytes lie in the value, with their length.
pub mod compared;
pub mod methods;

use std::marker::Model;

#[derive(Clone, Copy)]
pub struct Name {
    bytes: [u8; 255],
    len: usize,
}

// Clauses see its bytes.
impl Model for Name {
    ghost use Rattle.std.specs.Prelude.{length, take};
    ghost use Rattle.std.proofs.Common.{sym};
    ghost use Rattle.paths.specs.Names.{Name as Bytes};
    ghost use Rattle.paths.specs.Bytes.{filled, Spelt};

    ghost Value = { Bytes };

    ghost view = { λ n. take n.len n.bytes };

    ghost invariant = { λ n. Spelt 255 n.bytes n.len };

    ghost inverse = { λ n. record { bytes = filled 255 n; len = length n } };

    ghost inverse_ok = { λ n h i. record { bytes = sym h.0 i; len = sym h.1 i } };
}

// A path as a value.
pub mod compared;
pub mod methods;

use crate::spelled::Spelled;
use std::marker::Model;

#[derive(Clone, Copy)]
pub struct Path {
    pub(crate) spelled: Spelled<64>,
}

// Clauses see its names, the innermost first.
impl Model for Path {
    ghost use Rattle.std.specs.Prelude.{◌≤◌, length};
    ghost use Rattle.paths.specs.Names.{Names};

    ghost Value = { Names };

    ghost view = { λ p. p.spelled };

    ghost invariant = { λ p. length p.spelled ≤ 8 };

    ghost inverse = { λ p. record { spelled = p } };
}

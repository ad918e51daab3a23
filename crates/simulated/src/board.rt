// A board of 1 to 64 slots, each of which holds one path or none.
use crate::path_set::PathSet;
use std::marker::Model;

pub mod error;
pub mod making;
pub mod watching;

// A model and no ghost fields, so that clauses can write the next board out as a record.
#[derive(Drop)]
pub struct Board {
    slots: usize,
    held: PathSet<64>,
}

impl Model for Board {
    ghost use Rattle.std.specs.Prelude.{◌≡◌, ◌≤◌, true, length};
    ghost use Rattle.simulated.specs.Board.{Board as Seen, allowed};

    ghost Value = { Seen };

    ghost view = { λ b. record { slots = b.slots; held = b.held } };

    ghost invariant = { λ b. (allowed b.slots ≡ true) × (length b.held ≤ b.slots) };
}

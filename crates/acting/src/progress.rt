// How far a step has come: the state, the faults written so far, and whether a rebuild was asked.
use rules::Fault;
use state::Inner;
use std::marker::Model;
use tables::Queue;

// The fields are public: who runs a step makes one of its state, and reads the faults and the mark after it.
#[derive(Drop)]
pub struct Progress {
    pub inner: Inner,
    pub faults: Queue<Fault, 72>,
    pub rebuild: bool,
}

// Clauses see what the step reached.
impl Model for Progress {
    ghost use Rattle.rules.specs.Acts.{Progress as Reached};

    ghost Value = { Reached };

    ghost view = { λ p. record { state = p.inner; faults = p.faults; rebuild = p.rebuild } };
}

// Acts that make no request: what a step does to the state, the faults that it writes, the rebuild that it asks.
#![tactic(auto, unfolding(crate::proofs::Opened::opened))]

pub mod adding;
pub mod failing;
pub mod guarding;
pub mod progress;
pub mod reporting;

pub use progress::Progress;

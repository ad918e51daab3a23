// The recursor's state: bounded tables whose memory is had once, what they answer, and the edits of one or two of them.
#![tactic(auto, unfolding(crate::proofs::Opened::opened))]

pub mod drops;
pub mod inner;
pub mod lookups;
pub mod making;
pub mod marks;
pub mod places;
pub mod puts;

pub use inner::Inner;

// Bounded lists whose memory is had once: a table in the order of its keys, and a queue. Seven methods are a line
// or two in both; a struct under both would only repeat them.
#![tactic(auto)]

pub mod ascending;
pub mod entry;
pub mod full;
mod search;
pub mod waiting;

pub use ascending::Table;
pub use entry::Entry;
pub use full::NoPlace;
pub use waiting::Queue;

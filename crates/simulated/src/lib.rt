// The backends and filterers that we ship: a slot board, a roll of prepared answers, and a filter of names.
#![tactic(auto)]

pub mod board;
pub mod name_filter;
mod path_set;
pub mod prepared;
pub mod roll;

pub use board::Board;
pub use board::error::BoardError;
pub use name_filter::NameFilter;
pub use prepared::Prepared;
pub use roll::Roll;

// A sheet of prepared answers, as a scanner.
#![tactic(auto)]

pub mod class;
pub mod editing;
pub mod prepared;
pub mod refusal;
pub mod scanning;

pub use class::Class;
pub use prepared::Sheet;
pub use refusal::ClassRefusal;

// Paths of at most 8 names and 64 bytes, and the texts that name them.
#![tactic(auto)]

mod bytes;
pub mod cursor;
pub mod name;
pub mod normal;
pub mod path;
pub mod refusal;
mod spelled;

pub use cursor::{Cursor, Part};
pub use name::Name;
pub use normal::absolute;
pub use path::Path;
pub use refusal::Refusal;

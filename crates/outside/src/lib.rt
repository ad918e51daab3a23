// What lies outside a recursor: the backend that it asks, the scanner and the filterer that it consults.
#![tactic(auto)]

pub mod backend;
pub mod carried;
pub mod cause;
pub mod entry;
pub mod filterer;
pub mod scanner;

pub use backend::Backend;
pub use carried::Carried;
pub use cause::{BackendCause, Cause, FilterFault, ScanCause};
pub use entry::{EntryKind, ListedItem};
pub use filterer::Filterer;
pub use scanner::Scanner;

// The rules of the recursor, as written definitions (specs/), the worked examples that they meet, and the data that they speak of: roots,
// identities, the keys made of them, works, faults and refusals.
#![tactic(auto)]

pub mod cards;
pub mod failure;
pub mod fault;
pub mod fault_kind;
pub mod guard;
pub mod identity;
pub mod identity_kind;
pub mod owned;
pub mod progress;
pub mod refusal;
pub mod root;
pub mod seen;
pub mod share;
pub mod stale;
pub mod watcher_kind;
pub mod work;

pub use cards::cards_hold;
pub use failure::Failure;
pub use fault::Fault;
pub use fault_kind::{FaultKind, Layer};
pub use guard::Guard;
pub use identity::Identity;
pub use identity_kind::IdentityKind;
pub use owned::Owned;
pub use progress::{AddResult, Phase, Reason};
pub use refusal::Refusal;
pub use root::Root;
pub use seen::Seen;
pub use share::Share;
pub use stale::Stale;
pub use watcher_kind::WatcherKind;
pub use work::{Work, WorkKind};

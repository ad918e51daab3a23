// What is learnt from a scanner and a filterer: how a root stands, which directory guards it, which paths are allowed.
// The four walks share only the step to the parent; one with closures over the lent place is no plainer.
// Each walk sets its own follow mark: a struct of scanner and mark would be made anew in each.
#![tactic(auto)]

mod ascent;
mod descent;
pub mod explicit_root;
pub mod guard;
pub mod permit;
pub mod place;

pub use explicit_root::{ExplicitRootState, RootRefusal, classify_explicit_root};
pub use guard::guard_place;
pub use permit::candidate_allowed;
pub use place::Place;

// An identity that was scanned for a root.
use crate::identity::Identity;
use crate::root::Root;

// By root, then by identity.
#[derive(Clone, Copy, PartialEq, Eq, PartialOrd, Ord)]
pub struct Seen {
    pub root: Root,
    pub identity: Identity,
}

// A root and a path that concerns it.
use crate::root::Root;
use paths::Path;

// By root, then by path; an Owned has the other order.
#[derive(Clone, Copy, PartialEq, Eq, PartialOrd, Ord)]
pub struct Share {
    pub root: Root,
    pub path: Path,
}

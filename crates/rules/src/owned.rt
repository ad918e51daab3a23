// A path that a root owns.
use crate::root::Root;
use paths::Path;

// By path, then by root.
#[derive(Clone, Copy, PartialEq, Eq, PartialOrd, Ord)]
pub struct Owned {
    pub path: Path,
    pub root: Root,
}

// A root: a path, and whether what lies below is watched too.
use paths::Path;

// By path, the non-recursive first.
#[derive(Clone, Copy, PartialEq, Eq, PartialOrd, Ord)]
pub struct Root {
    pub path: Path,
    pub recursive: bool,
}

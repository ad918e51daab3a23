// An owner found stale when the sweep of that epoch was gathered.
use crate::root::Root;
use paths::Path;

// Path and root stand apart, as the definitions of the sweep name them: an Owned inside is no plainer.
#[derive(Clone, Copy)]
pub struct Stale {
    pub path: Path,
    pub root: Root,
    pub epoch: u32,
}

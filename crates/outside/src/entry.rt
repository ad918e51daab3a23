// What a scanner finds at a path, and in a listing.
use crate::cause::ScanCause;
use paths::Name;

// The canonical path of a directory stands beside, since no enum holds a path.
#[derive(Clone, Copy, PartialEq, Eq)]
pub enum EntryKind {
    Directory,
    NonFollowedSymlink,
    Other,
}

// A child's name, or why there is none.
pub type ListedItem = Result<Name, ScanCause>;

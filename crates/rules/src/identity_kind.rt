// What an identity goes by: a directory's canonical path, or a path as it is named. The path stands beside, since no enum holds a path.

// The canonical ones first.
#[derive(Clone, Copy, Debug, PartialEq, Eq, PartialOrd, Ord)]
pub enum IdentityKind {
    Canonical,
    Lexical,
}

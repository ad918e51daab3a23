// What a path is: a directory by its canonical path, anything else by the path as it is named.
ghost use Rattle.std.specs.Prelude.{◌≡◌};
ghost use Rattle.rules.specs.Roots.{canonical, lexical};

use crate::identity_kind::IdentityKind;
use paths::Path;

// The canonical ones first, each kind by path.
#[derive(Clone, Copy, PartialEq, Eq, PartialOrd, Ord)]
pub struct Identity {
    pub kind: IdentityKind,
    pub path: Path,
}

// One constructor for each kind: one for both would be the struct itself.
impl Identity {
    pub fn canonical(path: &Path) -> Identity
        ensures { result ≡ canonical path.now }
    {
        Identity {
            kind: IdentityKind::Canonical,
            path: *path,
        }
    }

    pub fn lexical(path: &Path) -> Identity
        ensures { result ≡ lexical path.now }
    {
        Identity {
            kind: IdentityKind::Lexical,
            path: *path,
        }
    }
}

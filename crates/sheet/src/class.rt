// What a row says of a path that is asked for.
ghost use Rattle.std.specs.Prelude.{◌≡◌, [], Ok, Err};
ghost use Rattle.outside.specs.Answers.{directory, symlink, other};
ghost use Rattle.sheet.specs.Classes.{class_by, is_link};

use outside::{EntryKind, ScanCause};
use paths::Path;
use std::marker::Model;

// The canonical path of a directory stands beside its kind, since no enum holds a path.
// Where there is no directory, that path is "/".
#[derive(Clone, Copy)]
pub struct Class {
    pub(crate) kind: Result<EntryKind, ScanCause>,
    pub(crate) canonical: Path,
}

impl Model for Class {
    ghost use Rattle.std.specs.Prelude.{[]};
    ghost use Rattle.outside.specs.Answers.{Classified};
    ghost use Rattle.outside.specs.Model.{kind as kind_in, canonical as canonical_in};
    ghost use Rattle.sheet.specs.Classes.{class_by, Tidy, kind_seen};

    ghost Value = { Classified };

    ghost view = { λ c. class_by c.kind c.canonical };

    ghost invariant = { λ c. Tidy c.kind c.canonical };

    ghost inverse = { λ a. record { kind = kind_in a; canonical = canonical_in a [] } };

    ghost inverse_ok = { λ c t i. record { kind = kind_seen c.kind c.canonical i; canonical = t i } };
}

impl Class {
    // With no canonical path of its own.
    fn bare(kind: Result<EntryKind, ScanCause>) -> Class
        ensures { result ≡ class_by kind [] }
    {
        Class {
            kind,
            canonical: Path::root(),
        }
    }

    pub fn directory(canonical: &Path) -> Class
        ensures { result ≡ Ok (directory canonical.now) }
    {
        Class {
            kind: Ok(EntryKind::Directory),
            canonical: *canonical,
        }
    }

    pub fn link() -> Class
        ensures { result ≡ Ok symlink }
    {
        Class::bare(Ok(EntryKind::NonFollowedSymlink))
    }

    pub fn other() -> Class
        ensures { result ≡ Ok other }
    {
        Class::bare(Ok(EntryKind::Other))
    }

    pub fn failed(cause: ScanCause) -> Class
        ensures { result ≡ Err cause }
    {
        Class::bare(Err(cause))
    }

    pub(crate) fn is_link(&self) -> bool
        ensures { result ≡ is_link self.now }
    {
        self.kind == Ok(EntryKind::NonFollowedSymlink)
    }
}

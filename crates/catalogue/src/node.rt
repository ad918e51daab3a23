// A node of a catalogue.
ghost use Rattle.std.specs.Prelude.{◌≡◌, []};
ghost use Rattle.catalogue.specs.Nodes.{directory, file, link};
ghost use Rattle.catalogue.specs.Model.{node_of};

use paths::Path;
use std::marker::Model;

#[derive(Clone, Copy, PartialEq, Eq)]
pub enum Kind {
    Directory,
    File,
    Link,
}

// The target stands beside the kind, since no enum holds a path; where there is no link, it is "/".
#[derive(Clone, Copy)]
pub struct Node {
    pub(crate) kind: Kind,
    pub(crate) target: Path,
}

impl Model for Node {
    ghost use Rattle.catalogue.specs.Nodes.{Node as Content};
    ghost use Rattle.catalogue.specs.Model.{node_of, kind_at};
    ghost use Rattle.catalogue.specs.Targets.{target_at, tidy, kind_back, target_back};

    ghost Value = { Content };

    ghost view = { λ x. node_of x.kind x.target };

    ghost invariant = { λ x. tidy x.kind x.target };

    ghost inverse = { λ x. record { kind = kind_at x; target = target_at x } };

    ghost inverse_ok = { λ x h i. record { kind = kind_back x.kind x.target i; target = target_back x.kind x.target h i } };
}

impl Node {
    pub fn directory() -> Node
        ensures { result ≡ directory }
    {
        Node::plain(Kind::Directory)
    }

    pub fn file() -> Node
        ensures { result ≡ file }
    {
        Node::plain(Kind::File)
    }

    pub fn link(target: &Path) -> Node
        ensures { result ≡ link target.now }
    {
        Node {
            kind: Kind::Link,
            target: *target,
        }
    }

    // A node with no target.
    fn plain(kind: Kind) -> Node
        ensures { result ≡ node_of kind [] }
    {
        Node {
            kind,
            target: Path::root(),
        }
    }
}

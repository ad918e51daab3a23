// Making a catalogue and changing its nodes.
ghost use Rattle.std.specs.Prelude.{◌≡◌, IfOk};
ghost use Rattle.catalogue.specs.Nodes.{bare, put as put_at, struck};

use crate::node::Node;
use crate::tree::Catalogue;
use paths::Path;
use std::alloc::{AllocError, Global};
use tables::{NoPlace, Table};

impl Catalogue {
    // Nothing but "/", a directory.
    pub fn new(heap: Global) -> Result<Catalogue, AllocError>
        ensures { IfOk result (λ c. c ≡ bare) }
    {
        let mut nodes = Table::new(heap)?;
        // The first of 64, so that this cannot fail.
        let _ = nodes.insert(Path::root(), Node::directory());
        Ok(Catalogue { nodes })
    }

    // A node at a path, in place of the one there.
    pub fn put(&mut self, path: &Path, node: Node) -> Result<(), NoPlace>
        ensures value { result ≡ (put_at path.now node self.old).0 }
        ensures after { self.new ≡ (put_at path.now node self.old).1 }
    {
        self.nodes.insert(*path, node)
    }

    // Removes the nodes at a path and below it.
    pub fn strike(&mut self, path: &Path)
        ensures { self.new ≡ struck path.now self.old }
    {
        self.nodes.retain(|e| !e.key.starts_with(path));
    }
}

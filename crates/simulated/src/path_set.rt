// A set of at most N paths, in their order, whose memory is had once.
ghost use Rattle.std.specs.Prelude.{◌≡◌, ◌≤◌, [], length, IfOk};
ghost use Rattle.simulated.specs.Paths.{holds, takes, entered, parted};

use paths::Path;
use std::alloc::{AllocError, Global};
use std::marker::Model;
use tables::{NoPlace, Table};

// A struct, so that clauses see paths where the table has entries.
#[derive(Drop)]
pub struct PathSet<const N: usize> {
    table: Table<Path, (), N>,
}

impl<const N: usize> Model for PathSet<N> {
    ghost use Rattle.std.specs.Prelude.{List};
    ghost use Rattle.paths.specs.Names.{Names};
    ghost use Rattle.simulated.specs.Paths.{keys};

    ghost Value = { List Names };

    ghost view = { λ s. keys s.table };
}

impl<const N: usize> PathSet<N> {
    pub fn new(heap: Global) -> Result<Self, AllocError>
        ensures { IfOk result (λ s. s ≡ []) }
    {
        let table = Table::new(heap)?;
        Ok(PathSet { table })
    }

    pub fn len(&self) -> usize
        ensures value { result ≡ length self.now }
        ensures within { result ≤ N }
    {
        self.table.len()
    }

    #[tactic(auto, using(crate::proofs::Seen::held_keys))]
    pub fn contains(&self, path: &Path) -> bool
        ensures { result ≡ holds path.now self.now }
    {
        self.table.contains_key(path)
    }

    // Whether the path is there, or would be one of at most that many.
    pub fn has_place(&self, path: &Path, most: usize) -> bool
        ensures { result ≡ takes most path.now self.now }
    {
        self.contains(path) || self.len() < most
    }

    #[tactic(auto, using(crate::proofs::Seen::entered_keys))]
    pub fn insert(&mut self, path: &Path) -> Result<(), NoPlace>
        ensures value { result ≡ (entered N path.now self.old).0 }
        ensures after { self.new ≡ (entered N path.now self.old).1 }
    {
        self.table.insert(*path, ())
    }

    pub fn remove(&mut self, path: &Path)
        ensures { self.new ≡ parted path.now self.old }
    {
        self.table.forget(path);
    }
}

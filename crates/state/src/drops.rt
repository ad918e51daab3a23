// What leaves the tables: that needs no place.
ghost use Rattle.std.specs.Prelude.{◌≡◌};
ghost use Rattle.rules.specs.Edits.{drop_failure, drop_skipped, drop_retry_root, lift_tombstones, drop_tombstone, drop_logical, drop_owner, drop_record, drop_guard, drop_guarded, loosen};

use crate::inner::Inner;
use paths::Path;
use rules::{Identity, Owned, Root};

// One line for each definition: a generic one over the tables would be `forget` itself.
impl Inner {
    pub fn drop_failure(&mut self, path: &Path)
        ensures { self.new ≡ drop_failure path.now self.old }
    {
        self.failures.forget(path);
    }

    pub fn drop_skipped(&mut self, path: &Path)
        ensures { self.new ≡ drop_skipped path.now self.old }
    {
        self.skipped.forget(path);
    }

    pub fn drop_retry_root(&mut self, root: &Root)
        ensures { self.new ≡ drop_retry_root root.now self.old }
    {
        self.retry_roots.forget(root);
    }

    // The tombstones at or above the path go.
    pub fn lift_tombstones(&mut self, path: &Path)
        ensures { self.new ≡ lift_tombstones path.now self.old }
    {
        self.tombstones.retain(|e| !path.starts_with(&e.key));
    }

    pub fn drop_tombstone(&mut self, path: &Path)
        ensures { self.new ≡ drop_tombstone path.now self.old }
    {
        self.tombstones.forget(path);
    }

    // The logical path goes, and its owners with it.
    pub fn drop_logical(&mut self, path: &Path)
        ensures { self.new ≡ drop_logical path.now self.old }
    {
        self.logical.forget(path);
        self.owners.retain(|e| e.key.path != *path);
    }

    pub fn drop_owner(&mut self, owner: &Owned)
        ensures { self.new ≡ drop_owner owner.now.path owner.now.root self.old }
    {
        self.owners.forget(owner);
    }

    pub fn drop_record(&mut self, identity: &Identity)
        ensures { self.new ≡ drop_record identity.now self.old }
    {
        self.records.forget(identity);
    }

    pub fn drop_guard(&mut self, path: &Path)
        ensures { self.new ≡ drop_guard path.now self.old }
    {
        self.guards.forget(path);
    }

    pub fn drop_guarded(&mut self, root: &Root)
        ensures { self.new ≡ drop_guarded root.now self.old }
    {
        self.guarded.forget(root);
    }

    // The guard at the path is no alias of its record any more.
    pub fn loosen(&mut self, path: &Path)
        ensures { self.new ≡ loosen path.now self.old }
    {
        if let Some(guard) = self.guards.get_mut(path) {
            guard.attached = false;
        }
    }
}

// What the state answers.
ghost use Rattle.std.specs.Prelude.{◌≡◌};
ghost use Rattle.std.specs.Option.{option_map};
ghost use Rattle.rules.specs.State.{is_configured, has_tombstone, is_skipped, identity_at, is_logical, watch_path_of, is_recorded, is_watched, guard_at, guarded_by, guards_roots, is_owned, is_marked, has_aliases, nothing_waits, has_work, needs_retry, concerns, concerns_any};
ghost use Rattle.rules.specs.Edits.{failures_at};

use crate::inner::Inner;
use paths::Path;
use rules::{Guard, Identity, Owned, Phase, Root};

// One line for each definition: a generic one over the tables would be `contains_key` or `get` itself.
impl Inner {
    pub fn is_configured(&self, root: &Root) -> bool
        ensures { result ≡ is_configured self.now root.now }
    {
        self.roots.contains_key(root)
    }

    pub fn has_tombstone(&self, path: &Path) -> bool
        ensures { result ≡ has_tombstone self.now path.now }
    {
        self.tombstones.contains_key(path)
    }

    pub fn is_skipped(&self, path: &Path) -> bool
        ensures { result ≡ is_skipped self.now path.now }
    {
        self.skipped.contains_key(path)
    }

    pub fn identity_at(&self, path: &Path) -> Option<&Identity>
        ensures { option_map (λ x. x.now) result ≡ identity_at self.now path.now }
    {
        self.logical.get(path)
    }

    pub fn is_logical(&self, path: &Path) -> bool
        ensures { result ≡ is_logical self.now path.now }
    {
        self.logical.contains_key(path)
    }

    pub fn watch_path_of(&self, identity: &Identity) -> Option<&Path>
        ensures { option_map (λ x. x.now) result ≡ watch_path_of self.now identity.now }
    {
        self.records.get(identity)
    }

    pub fn is_recorded(&self, identity: &Identity) -> bool
        ensures { result ≡ is_recorded self.now identity.now }
    {
        self.records.contains_key(identity)
    }

    pub fn is_watched(&self, path: &Path) -> bool
        ensures { result ≡ is_watched self.now path.now }
    {
        self.records.any(|e| e.value == *path)
    }

    pub fn guard_at(&self, path: &Path) -> Option<&Guard>
        ensures { option_map (λ x. x.now) result ≡ guard_at self.now path.now }
    {
        self.guards.get(path)
    }

    pub fn guarded_by(&self, root: &Root) -> Option<&Path>
        ensures { option_map (λ x. x.now) result ≡ guarded_by self.now root.now }
    {
        self.guarded.get(root)
    }

    pub fn guards_roots(&self, path: &Path) -> bool
        ensures { result ≡ guards_roots self.now path.now }
    {
        self.guarded.any(|e| e.value == *path)
    }

    pub fn is_owned(&self, path: &Path) -> bool
        ensures { result ≡ is_owned self.now path.now }
    {
        self.owners.any(|e| e.key.path == *path)
    }

    // The owner has exactly this mark.
    pub fn is_marked(&self, owner: &Owned, epoch: u32) -> bool
        ensures { result ≡ is_marked self.now owner.now.path owner.now.root epoch }
    {
        self.owners.get(owner).is_some_and(|mark| *mark == epoch)
    }

    // The record of this identity has an alias of either kind.
    pub fn has_aliases(&self, identity: &Identity) -> bool
        ensures { result ≡ has_aliases self.now identity.now }
    {
        self.logical.any(|e| e.value == *identity)
            || self
                .guards
                .any(|e| e.value.attached && e.value.identity == *identity)
    }

    // How often watching the path has failed.
    pub fn failures_at(&self, path: &Path) -> u8
        ensures { result ≡ failures_at self.now path.now }
    {
        self.failures.get(path).copied().unwrap_or(0)
    }

    fn nothing_waits(&self) -> bool
        ensures { result ≡ nothing_waits self.now }
    {
        self.removals.is_empty()
            && self.owner_removals.is_empty()
            && self.work.is_empty()
            && self.sweep.is_empty()
    }

    // Something waits, or the epoch is not settled.
    pub fn has_work(&self) -> bool
        ensures { result ≡ has_work self.now }
    {
        !self.nothing_waits() || self.phase != Phase::Settled
    }

    // Something is to be tried again, or the latch is set.
    pub fn needs_retry(&self) -> bool
        ensures { result ≡ needs_retry self.now }
    {
        !self.retry_roots.is_empty() || !self.retry_candidates.is_empty() || self.latched
    }

    // An event at the path concerns a configured root.
    pub fn concerns_any(&self, path: &Path) -> bool
        ensures { result ≡ concerns_any self.now path.now }
    {
        self.roots.any(|e| concerns(path, &e.key))
    }
}

// An event at the path concerns the root: it is the root's, or lies below a recursive one, or is a child of another.
fn concerns(path: &Path, root: &Root) -> bool
    ensures { result ≡ concerns path.now root.now }
{
    if *path == root.path {
        return true;
    }
    if root.recursive {
        path.starts_with(&root.path)
    } else {
        path.depth() > 0 && path.parent() == root.path
    }
}

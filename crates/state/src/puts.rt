// What enters the tables and the queue of works, or finds no place.
ghost use Rattle.std.specs.Prelude.{◌≡◌};
ghost use Rattle.rules.specs.Edits.{edited, push_front, put_logical, put_owner, put_record, put_guard, put_guarded, put_skipped, put_tombstone, put_retry_root, count_failure, once_more};
ghost use Rattle.rules.specs.Model.{work as work_of};

use crate::inner::Inner;
use paths::Path;
use rules::{Guard, Identity, Owned, Root, Work};
use tables::NoPlace;

// One line for each definition: a generic one over the tables would be `insert` itself.
impl Inner {
    pub fn push_front(&mut self, work: Work) -> Result<(), NoPlace>
        ensures { edited result self.new ≡ push_front (work_of work) self.old }
    {
        self.work.push_front(work)
    }

    pub fn put_logical(&mut self, path: &Path, identity: &Identity) -> Result<(), NoPlace>
        ensures { edited result self.new ≡ put_logical path.now identity.now self.old }
    {
        self.logical.insert(*path, *identity)
    }

    // The root's mark on the path, with the current epoch: one that stands is lent and renewed in place, as the
    // project asks.
    pub fn put_owner(&mut self, owner: &Owned) -> Result<(), NoPlace>
        ensures { edited result self.new ≡ put_owner owner.now.path owner.now.root self.old }
    {
        let epoch = self.epoch;
        if let Some(mark) = self.owners.get_mut(owner) {
            *mark = epoch;
            return Ok(());
        }
        self.owners.insert(*owner, epoch)
    }

    pub fn put_record(&mut self, identity: &Identity, path: &Path) -> Result<(), NoPlace>
        ensures { edited result self.new ≡ put_record identity.now path.now self.old }
    {
        self.records.insert(*identity, *path)
    }

    pub fn put_guard(&mut self, path: &Path, identity: &Identity) -> Result<(), NoPlace>
        ensures { edited result self.new ≡ put_guard path.now identity.now self.old }
    {
        let guard = Guard {
            identity: *identity,
            attached: true,
        };
        self.guards.insert(*path, guard)
    }

    pub fn put_guarded(&mut self, root: &Root, path: &Path) -> Result<(), NoPlace>
        ensures { edited result self.new ≡ put_guarded root.now path.now self.old }
    {
        self.guarded.insert(*root, *path)
    }

    pub fn put_skipped(&mut self, path: &Path) -> Result<(), NoPlace>
        ensures { edited result self.new ≡ put_skipped path.now self.old }
    {
        self.skipped.insert(*path, ())
    }

    pub fn put_tombstone(&mut self, path: &Path) -> Result<(), NoPlace>
        ensures { edited result self.new ≡ put_tombstone path.now self.old }
    {
        self.tombstones.insert(*path, ())
    }

    pub fn put_retry_root(&mut self, root: &Root) -> Result<(), NoPlace>
        ensures { edited result self.new ≡ put_retry_root root.now self.old }
    {
        self.retry_roots.insert(*root, ())
    }

    // One failure more at the path; two tell all, so the count stops there.
    pub fn count_failure(&mut self, path: &Path) -> Result<(), NoPlace>
        ensures { edited result self.new ≡ count_failure path.now self.old }
    {
        let count = self.failures_at(path);
        self.failures.insert(*path, once_more(count))
    }
}

fn once_more(count: u8) -> u8
    ensures { result ≡ once_more count }
{
    if count < 2 { count + 1 } else { 2 }
}

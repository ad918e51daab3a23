// What a guard's installing and its root's recheck do without a request.
ghost use Rattle.std.specs.Prelude.{◌≡◌};
ghost use Rattle.rules.specs.Guarding.{root_appeared, retry_root_at, guard_not_watched, guard_failed, guard_must_rebuild, recheck_guarded_root, install_guard, join_guard};
ghost use Rattle.acting.specs.Model.{Ends};

use crate::progress::Progress;
use looking::{RootRefusal, classify_explicit_root};
use outside::{ScanCause, Scanner};
use paths::Path;
use rules::{AddResult, Failure, Fault, Identity, Root, Work};
use tables::NoPlace;

impl Progress {
    // The root is there after all: what was held against it goes, and its work comes first.
    fn root_appeared(&mut self, root: &Root) -> Result<(), NoPlace>
        ensures { Ends (root_appeared root.now) self.old result self.new }
    {
        self.inner.lift_tombstones(&root.path);
        self.inner.drop_skipped(&root.path);
        self.inner.drop_failure(&root.path);
        self.inner.push_front(Work::root(root))
    }

    // A cause at a path: the root is to be tried again.
    pub fn retry_root_at(
        &mut self,
        root: &Root,
        path: &Path,
        cause: ScanCause,
    ) -> Result<(), NoPlace>
        ensures { Ends (retry_root_at root.now path.now cause) self.old result self.new }
    {
        self.report(Fault::scan(path, cause.into()))?;
        self.inner.put_retry_root(root)
    }

    // Whether the root appeared meanwhile.
    pub fn recheck_guarded_root<S: Scanner>(
        &mut self,
        scanner: &S,
        root: &Root,
    ) -> Result<(), NoPlace>
        ensures { Ends (recheck_guarded_root (S.Scanner.classified scanner.now) root.now) self.old result self.new }
    {
        let follow = self.inner.follows();
        let mut place = root.path;
        match classify_explicit_root(scanner, follow, &root.path, &mut place) {
            Ok(_) => self.root_appeared(root),
            Err(RootRefusal::Failed(cause)) => self.retry_root_at(root, &place, cause),
            Err(RootRefusal::NotFound | RootRefusal::Unsafe) => Ok(()),
        }
    }

    // The guard is in place. Only this and `join_guard` take root, path and identity, so no struct holds the three.
    pub fn install_guard<S: Scanner>(
        &mut self,
        scanner: &S,
        root: &Root,
        path: &Path,
        identity: &Identity,
    ) -> Result<(), NoPlace>
        ensures { Ends (install_guard (S.Scanner.classified scanner.now) root.now path.now identity.now) self.old result self.new }
    {
        self.inner.put_guard(path, identity)?;
        self.inner.put_guarded(root, path)?;
        self.inner.drop_retry_root(root);
        self.recheck_guarded_root(scanner, root)
    }

    // The guard joins the record of its identity.
    pub fn join_guard<S: Scanner>(
        &mut self,
        scanner: &S,
        root: &Root,
        path: &Path,
        identity: &Identity,
    ) -> Result<(), NoPlace>
        ensures { Ends (join_guard (S.Scanner.classified scanner.now) root.now path.now identity.now) self.old result self.new }
    {
        if !self.inner.room_for_guard(path, root) {
            return Err(NoPlace);
        }
        self.install_guard(scanner, root, path, identity)
    }

    // A guard path that is not there becomes a tombstone, and the guard is looked for once more.
    fn guard_failed(&mut self, root: &Root, path: &Path, how: AddResult) -> Result<(), NoPlace>
        ensures { Ends (guard_failed root.now path.now how) self.old result self.new }
    {
        if how != AddResult::Invalidated {
            return Ok(());
        }
        self.inner.put_tombstone(path)?;
        self.inner.push_front(Work::guard(root))
    }

    // A guard's watch that was not done: the root is to be tried again.
    pub fn guard_not_watched(&mut self, root: &Root, failure: &Failure) -> Result<(), NoPlace>
        ensures { Ends (guard_not_watched root.now failure.now.path failure.now.cause failure.now.carried) self.old result self.new }
    {
        self.inner.put_retry_root(root)?;
        let how = self.not_watched(failure)?;
        self.guard_failed(root, &failure.path, how)
    }

    // The root is to be tried again, and a rebuild is asked.
    pub fn guard_must_rebuild(&mut self, root: &Root) -> Result<(), NoPlace>
        ensures { Ends (guard_must_rebuild root.now) self.old result self.new }
    {
        self.inner.put_retry_root(root)?;
        self.rebuild = true;
        Ok(())
    }
}

// A watch that was not done: a scarce resource latches, a path that failed twice is skipped.
ghost use Rattle.std.specs.Prelude.{◌≡◌};
ghost use Rattle.rules.specs.Adding.{latch, fail, not_watched};
ghost use Rattle.acting.specs.Model.{Ends};

use crate::progress::Progress;
use outside::BackendCause;
use rules::fault::resource;
use rules::{AddResult, Failure, Fault, FaultKind};
use tables::NoPlace;

impl Progress {
    // A scarce resource latches, and is reported once an epoch.
    fn latch(&mut self, kind: FaultKind, failure: &Failure) -> Result<(), NoPlace>
        ensures { Ends (latch kind failure.now.cause failure.now.carried) self.old result self.new }
    {
        self.inner.set_latch();
        if self.inner.is_reported() {
            return Ok(());
        }
        self.inner.set_reported();
        self.report(Fault::resource(kind, failure))
    }

    // The first failure at a path asks a rebuild, the second skips the path.
    fn fail(&mut self, failure: &Failure) -> Result<AddResult, NoPlace>
        ensures { Ends (fail failure.now.path failure.now.cause failure.now.carried) self.old result self.new }
    {
        self.inner.count_failure(&failure.path)?;
        self.report(Fault::add(failure))?;
        if self.inner.failures_at(&failure.path) >= 2 {
            self.inner.put_skipped(&failure.path)?;
            return Ok(AddResult::Skipped);
        }
        self.rebuild = true;
        Ok(AddResult::Rebuild)
    }

    // A watch that was not done: the path is not there, a resource is scarce, or it failed.
    pub fn not_watched(&mut self, failure: &Failure) -> Result<AddResult, NoPlace>
        ensures { Ends (not_watched failure.now.path failure.now.cause failure.now.carried) self.old result self.new }
    {
        if failure.cause == BackendCause::PathNotFound {
            self.report(Fault::add(failure))?;
            return Ok(AddResult::Invalidated);
        }
        match resource(failure.cause) {
            Some(kind) => {
                self.latch(kind, failure)?;
                Ok(AddResult::Skipped)
            }
            None => self.fail(failure),
        }
    }
}

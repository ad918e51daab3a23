// The marks: the latch, whether it was reported, and what the opening fixed.
ghost use Rattle.std.specs.Prelude.{◌≡◌};
ghost use Rattle.rules.specs.Adding.{set_latch, set_reported};
ghost use Rattle.rules.specs.State.{follows, kind_of, is_latched, is_reported, is_current};

use crate::inner::Inner;
use paths::Path;
use rules::WatcherKind;

impl Inner {
    pub fn is_latched(&self) -> bool
        ensures { result ≡ is_latched self.now }
    {
        self.latched
    }

    pub fn is_reported(&self) -> bool
        ensures { result ≡ is_reported self.now }
    {
        self.reported
    }

    pub fn follows(&self) -> bool
        ensures { result ≡ follows self.now }
    {
        self.follow
    }

    pub fn kind(&self) -> WatcherKind
        ensures { result ≡ kind_of self.now }
    {
        self.kind
    }

    // The epoch is the current one.
    pub fn is_current(&self, epoch: u32) -> bool
        ensures { result ≡ is_current self.now epoch }
    {
        epoch == self.epoch
    }

    pub fn cwd(&self) -> &Path
        ensures { result.now ≡ self.now.cwd }
    {
        &self.cwd
    }

    pub fn set_latch(&mut self)
        ensures { self.new ≡ set_latch self.old }
    {
        self.latched = true;
    }

    pub fn set_reported(&mut self)
        ensures { self.new ≡ set_reported self.old }
    {
        self.reported = true;
    }
}

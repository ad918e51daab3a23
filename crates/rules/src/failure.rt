// A request that was not done.
ghost use Rattle.std.specs.Prelude.{◌≡◌};
ghost use Rattle.rules.specs.Faults.{fault_path};

use outside::{BackendCause, Carried};
use paths::Path;

// The path that was requested, the cause, and the path that the answer carried.
#[derive(Clone, Copy)]
pub struct Failure {
    pub path: Path,
    pub cause: BackendCause,
    pub carried: Carried,
}

impl Failure {
    // The path that a fault names: a part of what the answer carried, or else the path requested.
    pub fn at(&self) -> &Path
        ensures { result.now ≡ fault_path self.now.carried self.now.path }
    {
        self.carried.path().unwrap_or(&self.path)
    }
}

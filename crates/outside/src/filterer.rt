// A filterer says which directories are wanted.
ghost use Rattle.std.specs.Prelude.{◌≡◌, true, Ok};
ghost use Rattle.paths.specs.Names.{Names};
ghost use Rattle.outside.specs.Answers.{Verdict};
ghost use Rattle.outside.specs.Model.{verdict_of};

use crate::cause::FilterFault;
use paths::Path;

pub trait Filterer {
    // Yes, no or a fault number for each path.
    ghost verdict: { Self → Names → Verdict };

    fn check_dir(&self, path: &Path) -> Result<bool, FilterFault>
        ensures { verdict_of result ≡ verdict self.now path.now };
}

// The filterer that wants everything.
impl Filterer for () {
    ghost verdict = { λ _ _. Ok true };

    fn check_dir(&self, _path: &Path) -> Result<bool, FilterFault> {
        Ok(true)
    }
}

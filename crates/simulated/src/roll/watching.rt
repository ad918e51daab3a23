// A roll as a backend. Not one generic backend with the board: they answer differently, and share only the test for
// a place.
ghost use Rattle.simulated.specs.Paths.{holds};
ghost use Rattle.simulated.specs.Roll.{answer, after};
ghost use Rattle.simulated.specs.Meanings.{Due, roll_did};

use super::Roll;
use outside::{Backend, BackendCause, Carried};
use paths::Path;

impl Backend for Roll {
    ghost book = { λ b p. holds p b.book };

    ghost did = { Due answer after };

    ghost means = { roll_did };

    fn watch(&mut self, path: &Path, carried: &mut Carried) -> Result<(), BackendCause> {
        if !self.book.has_place(path, 128) {
            carried.clear();
            return Err(BackendCause::MaxFilesWatch);
        }
        self.next(carried)?;
        // There is a place, so that this cannot fail.
        let _ = self.book.insert(path);
        Ok(())
    }

    // A path that was not watched is off the book too.
    fn unwatch(&mut self, path: &Path, carried: &mut Carried) -> Result<(), BackendCause> {
        let outcome = self.next(carried);
        if matches!(outcome, Ok(()) | Err(BackendCause::WatchNotFound)) {
            self.book.remove(path);
        }
        outcome
    }
}

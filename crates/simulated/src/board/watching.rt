// A board as a backend.
ghost use Rattle.simulated.specs.Paths.{holds};
ghost use Rattle.simulated.specs.Board.{answer, after};
ghost use Rattle.simulated.specs.Meanings.{Due, board_did};

use super::Board;
use outside::{Backend, BackendCause, Carried};
use paths::Path;

impl Backend for Board {
    ghost book = { λ b p. holds p b.held };

    ghost did = { Due answer after };

    ghost means = { board_did };

    #[tactic(auto, using(crate::proofs::Room::entered_within))]
    fn watch(&mut self, path: &Path, carried: &mut Carried) -> Result<(), BackendCause> {
        carried.clear();
        if !self.held.has_place(path, self.slots) {
            return Err(BackendCause::MaxFilesWatch);
        }
        // There is a place, so that this cannot fail.
        let _ = self.held.insert(path);
        Ok(())
    }

    #[tactic(auto, using(crate::proofs::Room::parted_within))]
    fn unwatch(&mut self, path: &Path, carried: &mut Carried) -> Result<(), BackendCause> {
        carried.clear();
        if !self.held.contains(path) {
            return Err(BackendCause::WatchNotFound);
        }
        self.held.remove(path);
        Ok(())
    }
}

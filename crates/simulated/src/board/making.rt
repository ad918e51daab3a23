// Making a board, and how full it is.
ghost use Rattle.std.specs.Prelude.{◌≡◌, true};
ghost use Rattle.simulated.specs.Board.{allowed, fill as fill_of, Made};

use super::Board;
use super::error::BoardError;
use crate::path_set::PathSet;
use std::alloc::Global;

impl Board {
    pub fn new(heap: Global, slots: usize) -> Result<Board, BoardError>
        ensures { Made slots result }
    {
        if !(1..=64).contains(&slots) {
            return Err(BoardError::Slots);
        }
        let held = PathSet::new(heap)?;
        Ok(Board { slots, held })
    }

    // How many of a hundred slots would hold a path, the fraction dropped.
    pub fn fill(&self) -> usize
        ensures value { result ≡ fill_of self.now }
        ensures slots { allowed self.now.slots ≡ true }
    {
        self.held.len() * 100 / self.slots
    }
}

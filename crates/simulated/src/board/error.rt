// Why a board was not made.
ghost use Rattle.std.specs.Prelude.{◌≡◌};
ghost use Rattle.simulated.specs.declared.board.error.BoardError.TheVariants.{NoMemory};

use std::alloc::AllocError;

#[derive(Clone, Copy, Debug, PartialEq, Eq)]
pub enum BoardError {
    // The number of slots is not 1 to 64.
    Slots,
    NoMemory,
}

impl From<AllocError> for BoardError {
    ghost from_gives = { λ _ r. r ≡ NoMemory };

    fn from(_: AllocError) -> BoardError {
        BoardError::NoMemory
    }
}

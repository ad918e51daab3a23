// The commands that set the backend up.
use crate::args::{Args, read_path};
use crate::causes::read_answer;
use crate::commands::BackendCommand;
use crate::ends::AnyBackend;
use crate::world::World;
use crate::wrong::Wrong;
use paths::Path;
use simulated::{Board, Prepared, Roll};

impl World {
    pub fn backend_command(
        &mut self,
        command: BackendCommand,
        args: &mut Args<'_>,
    ) -> Result<(), Wrong> {
        // A match, not closures: the commands are closed, and each has its own arguments.
        match command {
            BackendCommand::Board => self.board(args),
            BackendCommand::Roll => self.roll(args),
            BackendCommand::Answer => self.prepare(args),
        }
    }

    fn board(&mut self, args: &mut Args<'_>) -> Result<(), Wrong> {
        let slots = args.number(1000)?;
        args.end()?;
        if self.backend.is_some() {
            return Err(Wrong::SecondBackend);
        }
        // The number is bounded where it is read, so the cast keeps it.
        let board = Board::new(self.heap, slots as usize)?;
        self.backend = Some(AnyBackend::Board(board));
        Ok(())
    }

    fn roll(&mut self, args: &mut Args<'_>) -> Result<(), Wrong> {
        args.end()?;
        if self.backend.is_some() {
            return Err(Wrong::SecondBackend);
        }
        self.backend = Some(AnyBackend::Roll(Roll::new(self.heap)?));
        Ok(())
    }

    fn prepare(&mut self, args: &mut Args<'_>) -> Result<(), Wrong> {
        let prepared = self.prepared(args)?;
        let Some(AnyBackend::Roll(roll)) = &mut self.backend else {
            return Err(Wrong::NoRoll);
        };
        roll.prepare(prepared).map_err(|_| Wrong::FullRoll)
    }

    // `done`, a cause, or a cause and the path that it carries.
    fn prepared(&self, args: &mut Args<'_>) -> Result<Prepared, Wrong> {
        let answer = read_answer(args.word()?)?;
        let word = args.next()?;
        match (answer, word) {
            (Ok(()), None) => Ok(Prepared::done()),
            (Ok(()), Some(_)) => Err(Wrong::DonePath),
            (Err(cause), None) => Ok(Prepared::failed(cause)),
            (Err(cause), Some(word)) => {
                let mut path = Path::root();
                read_path(self.heap, word, &mut path)?;
                args.end()?;
                Ok(Prepared::failed_at(cause, &path))
            }
        }
    }
}

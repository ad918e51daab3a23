// One run of the program: scenarios, line by line.
use crate::args::Args;
use crate::commands::{Command, Question};
use crate::printable::push_printable;
use crate::world::World;
use crate::wrong::Wrong;
use scenario::{is_blank, is_word};
use std::alloc::{AllocError, Global};
use std::fmt::Write;

#[derive(Drop)]
pub struct Session {
    world: World,
    // A line was wrong, so the rest of its scenario is passed over.
    passing: bool,
}

impl Session {
    pub fn new(heap: Global) -> Result<Session, AllocError> {
        let world = World::new(heap)?;
        Ok(Session {
            world,
            passing: false,
        })
    }

    // Does what a line says, and appends what it did.
    pub fn line(&mut self, number: u64, line: &[u8], out: &mut String) -> Result<(), AllocError> {
        if is_blank(line) {
            return Ok(());
        }
        let mut args = Args::new(self.world.heap, line);
        if let Err(wrong) = self.command(line, &mut args, out) {
            self.passing = true;
            write!(out, "error {number}: {wrong} ")?;
            push_printable(out, args.last)?;
            out.push('\n')?;
        }
        Ok(())
    }

    fn command(&mut self, line: &[u8], args: &mut Args<'_>, out: &mut String) -> Result<(), Wrong> {
        let word = args.word()?;
        if self.passing && !is_word(word, b"scenario") {
            return Ok(());
        }
        match Command::try_from(word)? {
            Command::Scenario => self.scenario(args, out),
            Command::Backend(command) => self.world.backend_command(command, args),
            Command::Scanner(command) => self.world.scanner_command(command, args),
            Command::Filter(command) => self.world.filter_command(command, args),
            Command::Ask(question) => self.ask(line, question, args, out),
            Command::Call => Err(Wrong::NotYet),
        }
    }

    // A question prints its line before its answer.
    fn ask(
        &mut self,
        line: &[u8],
        question: Question,
        args: &mut Args<'_>,
        out: &mut String,
    ) -> Result<(), Wrong> {
        let mut told = String::new(self.world.heap);
        self.world.answer(question, args, &mut told)?;
        out.push_str("> ")?;
        push_printable(out, line)?;
        out.push('\n')?;
        Ok(out.push_str(&told)?)
    }

    // Everything is forgotten.
    fn scenario(&mut self, args: &mut Args<'_>, out: &mut String) -> Result<(), Wrong> {
        let name = args.word()?;
        args.end()?;
        self.world = World::new(self.world.heap)?;
        self.passing = false;
        out.push_str("== ")?;
        push_printable(out, name)?;
        Ok(out.push('\n')?)
    }
}

// The commands that set the filterer up, and the room for faults.
use crate::args::Args;
use crate::commands::FilterCommand;
use crate::filterer::Rules;
use crate::world::World;
use crate::wrong::Wrong;
use std::alloc::AllocError;

impl World {
    pub fn filter_command(
        &mut self,
        command: FilterCommand,
        args: &mut Args<'_>,
    ) -> Result<(), Wrong> {
        match command {
            FilterCommand::Filter => self.filter(args),
            FilterCommand::Deny => self.deny(args),
            FilterCommand::Balk => self.balk(args),
            FilterCommand::Faults => self.faults(args),
        }
    }

    fn filter(&mut self, args: &mut Args<'_>) -> Result<(), Wrong> {
        args.end()?;
        self.rules = None;
        Ok(())
    }

    fn deny(&mut self, args: &mut Args<'_>) -> Result<(), Wrong> {
        let name = args.name()?;
        args.end()?;
        self.named_rules()?.deny(&name)
    }

    fn balk(&mut self, args: &mut Args<'_>) -> Result<(), Wrong> {
        let name = args.name()?;
        let number = args.number(u64::from(u16::MAX))?;
        args.end()?;
        // The number is bounded where it is read, so the cast keeps it.
        self.named_rules()?.balk(&name, number as u16)
    }

    // The rules, made where the first name is set.
    fn named_rules(&mut self) -> Result<&mut Rules, AllocError> {
        let heap = self.heap;
        match &mut self.rules {
            Some(rules) => Ok(rules),
            none => Ok(none.insert(Rules::new(heap)?)),
        }
    }

    fn faults(&mut self, args: &mut Args<'_>) -> Result<(), Wrong> {
        let places = args.number(65536)?;
        args.end()?;
        self.fault_places = places;
        Ok(())
    }
}

// The filterer of a scenario: names that are refused, and names that are answered with a fault number.
use crate::wrong::Wrong;
use outside::{FilterFault, Filterer};
use paths::{Name, Path};
use simulated::NameFilter;
use std::alloc::{AllocError, Global};

// As many as a name filter has room for.
const MOST_BALKS: usize = 16;

#[derive(Clone, Copy)]
pub struct Balk {
    name: Name,
    number: u16,
}

// A name has one answer: that of the line that came last.
#[derive(Drop)]
pub struct Rules {
    denied: NameFilter,
    // A list, not a map: names have no order, and there are at most 16.
    balks: Vec<Balk>,
}

impl Rules {
    // Everything is allowed.
    pub fn new(heap: Global) -> Result<Rules, AllocError> {
        let denied = NameFilter::new(heap)?;
        Ok(Rules {
            denied,
            balks: Vec::new(heap),
        })
    }

    pub fn deny(&mut self, name: &Name) -> Result<(), Wrong> {
        self.denied.refuse(name).map_err(|_| Wrong::FullFilter)?;
        self.forget(name);
        Ok(())
    }

    pub fn balk(&mut self, name: &Name, number: u16) -> Result<(), Wrong> {
        self.forget(name);
        if self.balks.len() >= MOST_BALKS {
            return Err(Wrong::FullFilter);
        }
        let balk = Balk {
            name: *name,
            number,
        };
        self.balks.push(balk).map_err(|_| Wrong::NoMemory)
    }

    fn forget(&mut self, name: &Name) {
        // A name stands once, so the rest need not be asked.
        if let Some(at) = self.balks.iter().position(|balk| balk.name == *name) {
            let _ = self.balks.remove(at);
        }
    }

    fn balked(&self, name: &Name) -> Option<u16> {
        self.balks
            .iter()
            .find(|balk| balk.name == *name)
            .map(|balk| balk.number)
    }

    pub fn verdict(&self, path: &Path) -> Result<bool, FilterFault> {
        // By reference: a name is a buffer of 255 bytes.
        if let Some(number) = path.name().as_ref().and_then(|name| self.balked(name)) {
            return Err(FilterFault(number));
        }
        self.denied.check_dir(path)
    }
}

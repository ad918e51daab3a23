// A filterer that refuses at most 16 last names.
ghost use Rattle.std.specs.Prelude.{◌≡◌, [], IfOk, Ok};
ghost use Rattle.paths.specs.Names.{last};
ghost use Rattle.simulated.specs.Filters.{among, refused, wanted};

use outside::{FilterFault, Filterer};
use paths::{Name, Path};
use std::alloc::{AllocError, Global};
use std::marker::Model;
use tables::{NoPlace, Queue};

// A queue and no set: the definition keeps the names in the order in which they were refused.
#[derive(Drop)]
pub struct NameFilter {
    names: Queue<Name, 16>,
}

impl Model for NameFilter {
    ghost use Rattle.std.specs.Prelude.{List};
    ghost use Rattle.paths.specs.Names.{Name};

    ghost Value = { List Name };

    ghost view = { λ f. f.names };
}

impl NameFilter {
    pub fn new(heap: Global) -> Result<NameFilter, AllocError>
        ensures { IfOk result (λ f. f ≡ []) }
    {
        let names = Queue::new(heap)?;
        Ok(NameFilter { names })
    }

    pub fn refuse(&mut self, name: &Name) -> Result<(), NoPlace>
        ensures value { result ≡ (refused name.now self.old).0 }
        ensures after { self.new ≡ (refused name.now self.old).1 }
    {
        if self.refuses(name) {
            return Ok(());
        }
        self.names.push_back(*name)
    }

    fn refuses(&self, name: &Name) -> bool
        ensures { result ≡ among name.now self.now }
    {
        self.names.any(|n| n == name)
    }
}

impl Filterer for NameFilter {
    ghost verdict = { λ f p. Ok (wanted f (last p)) };

    fn check_dir(&self, path: &Path) -> Result<bool, FilterFault> {
        Ok(path.name().is_none_or(|name| !self.refuses(&name)))
    }
}

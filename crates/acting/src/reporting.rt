// Writing a fault.
ghost use Rattle.std.specs.Prelude.{◌≡◌};
ghost use Rattle.rules.specs.Acts.{outcome, reported};

use crate::progress::Progress;
use rules::Fault;
use tables::NoPlace;

impl Progress {
    pub fn report(&mut self, fault: Fault) -> Result<(), NoPlace>
        ensures { reported fault self.old ≡ outcome result self.new }
    {
        self.faults.push_back(fault)
    }
}

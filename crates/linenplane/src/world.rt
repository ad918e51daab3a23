// The outside of a scenario, as its lines have set it up so far.
use crate::ends::{AnyBackend, AnyScanner};
use crate::filterer::Rules;
use catalogue::Catalogue;
use std::alloc::{AllocError, Global};

#[derive(Drop)]
pub struct World {
    pub heap: Global,
    pub backend: Option<AnyBackend>,
    pub scanner: AnyScanner,
    // None while no line named anything: everything is allowed.
    pub rules: Option<Rules>,
    // How many faults the list has room for that later steps and runs are given.
    pub fault_places: u64,
}

impl World {
    // No backend, a catalogue of nothing but "/", and everything allowed.
    pub fn new(heap: Global) -> Result<World, AllocError> {
        let catalogue = Catalogue::new(heap)?;
        Ok(World {
            heap,
            backend: None,
            scanner: AnyScanner::Catalogue(catalogue),
            rules: None,
            fault_places: 512,
        })
    }
}

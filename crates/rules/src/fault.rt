// A fault: what a step reports, and where.
ghost use Rattle.std.specs.Prelude.{◌≡◌};
ghost use Rattle.rules.specs.Faults.{add_fault, remove_fault, resource_fault, path_fault, resource};
ghost use Rattle.rules.specs.declared.fault_kind.FaultKind.TheVariants.{PathScan};

use crate::failure::Failure;
use crate::fault_kind::{FaultKind, Layer};
use outside::{BackendCause, Carried, Cause};
use paths::Path;

// The layer that it comes from, its kind, its path or none, and the cause from below, whole.
#[derive(Clone, Copy)]
pub struct Fault {
    pub layer: Layer,
    pub kind: FaultKind,
    pub path: Carried,
    pub cause: Cause,
}

// The scarce resource that a backend's cause speaks of, if it does: the numbers are Linux's.
pub fn resource(cause: BackendCause) -> Option<FaultKind>
    ensures { result ≡ resource cause }
{
    match cause {
        BackendCause::MaxFilesWatch | BackendCause::Io(28) => Some(FaultKind::TooManyWatches),
        BackendCause::Io(23 | 24) => Some(FaultKind::TooManyHandles),
        _ => None,
    }
}

impl Fault {
    // At this path, by the watcher.
    fn at(kind: FaultKind, path: &Path, cause: Cause) -> Fault
        ensures { result ≡ path_fault kind path.now cause }
    {
        let mut place = Carried::nothing();
        place.put(path);
        Fault {
            layer: Layer::Watcher,
            kind,
            path: place,
            cause,
        }
    }

    // A watch that was not done.
    // One constructor for each kind: one for both would be `at` with the kind given.
    pub fn add(failure: &Failure) -> Fault
        ensures { result ≡ add_fault failure.now.path failure.now.cause failure.now.carried }
    {
        Fault::at(FaultKind::PathAdd, failure.at(), failure.cause.into())
    }

    // An unwatch that was not done; a constructor of its own, as that of a watch.
    pub fn remove(failure: &Failure) -> Fault
        ensures { result ≡ remove_fault failure.now.path failure.now.cause failure.now.carried }
    {
        Fault::at(FaultKind::PathRemove, failure.at(), failure.cause.into())
    }

    // A scarce resource is no path's: only the path that the answer carried is named.
    pub fn resource(kind: FaultKind, failure: &Failure) -> Fault
        ensures { result ≡ resource_fault kind failure.now.cause failure.now.carried }
    {
        Fault {
            layer: Layer::Watcher,
            kind,
            path: failure.carried,
            cause: failure.cause.into(),
        }
    }

    // A scanner's cause at a path, or that the path changed meanwhile.
    pub fn scan(path: &Path, cause: Cause) -> Fault
        ensures { result ≡ path_fault PathScan path.now cause }
    {
        Fault::at(FaultKind::PathScan, path, cause)
    }
}

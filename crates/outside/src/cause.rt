// Why a request or a question was not answered, and how such a cause rises whole.
ghost use Rattle.std.specs.Prelude.{◌≡◌, Some};
ghost use Rattle.outside.specs.declared.cause.Cause.TheVariants.{Backend, Scan, Filter};
ghost use Rattle.outside.specs.Texts.{backend_text, scan_text, fault_text};

use std::error::Error;
use std::fmt;

// Why a backend did not do what it was asked. The path that it may name stands beside.
#[derive(Clone, Copy, Debug, PartialEq, Eq)]
pub enum BackendCause {
    PathNotFound,
    WatchNotFound,
    MaxFilesWatch,
    Io(u32),
    Other,
}

// Why a scanner cannot say what a path is or what it lists.
#[derive(Clone, Copy, Debug, PartialEq, Eq)]
pub enum ScanCause {
    NotFound,
    Number(u32),
}

// The number of a fault of the filterer.
#[derive(Clone, Copy, Debug, PartialEq, Eq)]
pub struct FilterFault(pub u16);

// A cause from below, whole; `Changed` is found by comparing two answers of a scanner.
#[derive(Clone, Copy, Debug, PartialEq, Eq)]
pub enum Cause {
    Backend(BackendCause),
    Scan(ScanCause),
    Changed,
    Filter(FilterFault),
}

impl fmt::Display for BackendCause {
    ghost output = { λ c. Some (backend_text c) };

    fn fmt<W: fmt::Write>(&self, f: &mut fmt::Formatter<W>) -> fmt::Result {
        match self {
            BackendCause::PathNotFound => f.write_str("path-not-found"),
            BackendCause::WatchNotFound => f.write_str("watch-not-found"),
            BackendCause::MaxFilesWatch => f.write_str("max-files"),
            BackendCause::Io(n) => write!(f, "io:{n}"),
            BackendCause::Other => f.write_str("other"),
        }
    }
}

impl Error for BackendCause {}

impl fmt::Display for ScanCause {
    ghost output = { λ c. Some (scan_text c) };

    fn fmt<W: fmt::Write>(&self, f: &mut fmt::Formatter<W>) -> fmt::Result {
        match self {
            ScanCause::NotFound => f.write_str("not-found"),
            ScanCause::Number(n) => write!(f, "number:{n}"),
        }
    }
}

impl Error for ScanCause {}

impl fmt::Display for FilterFault {
    ghost output = { λ c. Some (fault_text c) };

    fn fmt<W: fmt::Write>(&self, f: &mut fmt::Formatter<W>) -> fmt::Result {
        write!(f, "fault:{}", self.0)
    }
}

impl Error for FilterFault {}

// By hand: a derive of `From` has no clause on the variant.
impl From<BackendCause> for Cause {
    ghost from_gives = { λ c r. r ≡ Backend c };

    fn from(cause: BackendCause) -> Cause {
        Cause::Backend(cause)
    }
}

impl From<ScanCause> for Cause {
    ghost from_gives = { λ c r. r ≡ Scan c };

    fn from(cause: ScanCause) -> Cause {
        Cause::Scan(cause)
    }
}

impl From<FilterFault> for Cause {
    ghost from_gives = { λ c r. r ≡ Filter c };

    fn from(fault: FilterFault) -> Cause {
        Cause::Filter(fault)
    }
}

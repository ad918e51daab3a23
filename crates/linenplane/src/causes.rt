// Causes and answers as a scenario writes them.
use crate::args::read_number;
use crate::wrong::Wrong;
use outside::{BackendCause, Carried, EntryKind, FilterFault, ScanCause};
use paths::Path;
use scenario::encode;
use std::alloc::AllocError;
use std::fmt::Write;

// A cause of a scanner: `not-found` or `number:N`.
// No TryFrom: neither type is of this crate, and a wrapper of the cause would be no plainer.
pub fn read_scan_cause(word: &[u8]) -> Result<ScanCause, Wrong> {
    match word {
        b"not-found" => Ok(ScanCause::NotFound),
        _ => {
            let number = word.strip_prefix(b"number:").ok_or(Wrong::NoCause)?;
            Ok(ScanCause::Number(read_u32(number)?))
        }
    }
}

// An answer of a backend: `done` or a cause.
// No TryFrom: neither type is of this crate, and a wrapper of the cause would be no plainer.
pub fn read_answer(word: &[u8]) -> Result<Result<(), BackendCause>, Wrong> {
    Ok(match word {
        b"done" => Ok(()),
        b"path-not-found" => Err(BackendCause::PathNotFound),
        b"watch-not-found" => Err(BackendCause::WatchNotFound),
        b"max-files" => Err(BackendCause::MaxFilesWatch),
        b"other" => Err(BackendCause::Other),
        _ => {
            let number = word.strip_prefix(b"io:").ok_or(Wrong::NoAnswer)?;
            Err(BackendCause::Io(read_u32(number)?))
        }
    })
}

// The number is bounded where it is read, so the cast keeps it.
fn read_u32(word: &[u8]) -> Result<u32, Wrong> {
    Ok(read_number(word, u64::from(u32::MAX))? as u32)
}

// The line of a request: its verb, its path, the answer, and the path that the answer carried.
// A function, not a Display: a path is spelt by encode, whose promise is of a String.
pub fn write_request(
    out: &mut String,
    verb: &str,
    path: &Path,
    answer: Result<(), BackendCause>,
    carried: &Carried,
) -> Result<(), AllocError> {
    write!(out, "{verb} ")?;
    encode(out, path.text())?;
    match answer {
        Ok(()) => out.push_str(" done")?,
        Err(cause) => write!(out, " {cause}")?,
    }
    if let Some(at) = carried.path() {
        out.push_str(" at ")?;
        encode(out, at.text())?;
    }
    out.push('\n')
}

// The line of a classification.
// A function, not a Display: a path is spelt by encode, whose promise is of a String.
pub fn write_entry(
    out: &mut String,
    entry: Result<EntryKind, ScanCause>,
    canonical: &Path,
) -> Result<(), AllocError> {
    match entry {
        Ok(EntryKind::Directory) => {
            out.push_str("directory ")?;
            encode(out, canonical.text())?;
        }
        Ok(EntryKind::NonFollowedSymlink) => out.push_str("symlink")?,
        Ok(EntryKind::Other) => out.push_str("other")?,
        Err(cause) => write!(out, "{cause}")?,
    }
    out.push('\n')
}

// The line of a filterer's answer.
pub fn write_verdict(
    out: &mut String,
    verdict: Result<bool, FilterFault>,
) -> Result<(), AllocError> {
    match verdict {
        Ok(true) => writeln!(out, "yes"),
        Ok(false) => writeln!(out, "no"),
        Err(fault) => writeln!(out, "{fault}"),
    }
}

// A place that the caller lends to the search for a guard, since no result holds a path.
ghost use Rattle.std.specs.Prelude.{◌≡◌, Ok, true, false};
ghost use Rattle.rules.specs.Looking.{nowhere, ascend_by};
ghost use Rattle.looking.specs.Model.{place_of};

use outside::{EntryKind, ScanCause, Scanner};
use paths::Path;

// The directory that was found, with its canonical path; the first is also the path that a cause is of.
#[derive(Clone, Copy)]
pub struct Place {
    pub path: Path,
    pub canonical: Path,
}

// Whether a directory is there, which the place then holds; what is not found is passed over.
pub(crate) fn visit<S: Scanner>(
    scanner: &S,
    follow: bool,
    path: &Path,
    place: &mut Place,
) -> Result<bool, ScanCause>
    ensures value { place_of result place.new ≡ ascend_by path.now nowhere (S.Scanner.classified scanner.now path.now follow) }
    ensures kept { result ≡ Ok false → place_of (Ok true) place.new ≡ place_of (Ok true) place.old }
{
    match scanner.classify(path, follow, &mut place.canonical) {
        Ok(EntryKind::Directory) => {
            place.path = *path;
            Ok(true)
        }
        Ok(_) | Err(ScanCause::NotFound) => Ok(false),
        Err(cause) => {
            place.path = *path;
            Err(cause)
        }
    }
}

// How a configured root stands.
ghost use Rattle.std.specs.Prelude.{◌≡◌, false};
ghost use Rattle.rules.specs.Looking.{reached, not_followed, classify_explicit_root};
ghost use Rattle.looking.specs.Model.{root_state};

use outside::{EntryKind, ScanCause, Scanner};
use paths::Path;

// Why a root is no entry. The path that is not found or that failed stands beside, as does a directory's canonical path.
#[derive(Clone, Copy, Debug, PartialEq, Eq)]
pub enum RootRefusal {
    NotFound,
    Unsafe,
    Failed(ScanCause),
}

// How a root stands: what is there, or why it is no entry.
pub type ExplicitRootState = Result<EntryKind, RootRefusal>;

// A link is not safe; with following the scanner finds none.
fn reached<S: Scanner>(
    scanner: &S,
    follow: bool,
    path: &Path,
    place: &mut Path,
) -> ExplicitRootState
    ensures { root_state result place.new ≡ reached path.now (S.Scanner.classified scanner.now path.now follow) }
{
    match scanner.classify(path, follow, place) {
        Ok(EntryKind::NonFollowedSymlink) => Err(RootRefusal::Unsafe),
        Ok(kind) => Ok(kind),
        Err(cause) => {
            *place = *path;
            match cause {
                ScanCause::NotFound => Err(RootRefusal::NotFound),
                ScanCause::Number(_) => Err(RootRefusal::Failed(cause)),
            }
        }
    }
}

// From "/" down; a path has at most 8 names, so the recursion is shallow.
#[tactic(auto, unfolding(rules::specs::Looking::not_followed))]
fn not_followed<S: Scanner>(scanner: &S, path: &Path, place: &mut Path) -> ExplicitRootState
    ensures { root_state result place.new ≡ not_followed (S.Scanner.classified scanner.now) path.now }
{
    if path.depth() == 0 {
        return reached(scanner, false, path, place);
    }
    if not_followed(scanner, &path.parent(), place)? != EntryKind::Directory {
        return Err(RootRefusal::Unsafe);
    }
    reached(scanner, false, path, place)
}

// The place holds afterwards the path that stands beside the state.
#[tactic(auto, unfolding(rules::specs::Looking::classify_explicit_root))]
pub fn classify_explicit_root<S: Scanner>(
    scanner: &S,
    follow: bool,
    path: &Path,
    place: &mut Path,
) -> ExplicitRootState
    ensures { root_state result place.new ≡ classify_explicit_root (S.Scanner.classified scanner.now) follow path.now }
{
    if follow {
        reached(scanner, true, path, place)
    } else {
        not_followed(scanner, path, place)
    }
}

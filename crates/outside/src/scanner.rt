// A scanner says what stands at a path and what a directory lists; to ask changes nothing.
ghost use Rattle.std.specs.Prelude.{◌≡◌, ℕ, Bool, true, Ok, ◌≢◌};
ghost use Rattle.paths.specs.Names.{Names};
ghost use Rattle.outside.specs.Answers.{Classified, symlink, Listed, item_at};
ghost use Rattle.outside.specs.Model.{kind, canonical as canonical_after};

use crate::cause::ScanCause;
use crate::entry::{EntryKind, ListedItem};
use paths::Path;

pub trait Scanner {
    // One classification for each path and follow mark.
    ghost classified: { Self → Names → Bool → Classified };

    // One listing for each path.
    ghost listed: { Self → Names → Listed };

    // The canonical path of a directory is put into the place that the caller lends, since no result holds a path.
    fn classify(
        &self,
        path: &Path,
        follow: bool,
        canonical: &mut Path,
    ) -> Result<EntryKind, ScanCause>
        ensures value { result ≡ kind (classified self.now path.now follow) }
        ensures after { canonical.new ≡ canonical_after (classified self.now path.now follow) canonical.old };

    // The item of that number, from 0, of the path's listing: a child's name or a cause, or none behind the last.
    // Asked by number: to ask changes nothing, and no borrow of the scanner lasts.
    fn item(&self, path: &Path, number: usize) -> Result<Option<ListedItem>, ScanCause>
        ensures { result ≡ item_at number (listed self.now path.now) };

    ghost followed: { (s : Self) (p : Names) → classified s p true ≢ Ok symlink };
}

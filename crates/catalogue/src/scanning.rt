// A catalogue as a scanner.
ghost use Rattle.std.specs.Prelude.{◌≡◌, true, false, map, Ok, is_some};
ghost use Rattle.std.specs.List.{slice_get};
ghost use Rattle.outside.specs.Model.{kind as kind_in, kind_of, canonical as canonical_after, canonical_of};
ghost use Rattle.catalogue.specs.Nodes.{child_name, children};
ghost use Rattle.catalogue.specs.Ways.{arrive as arrive_at, followed, classified as classified_in, listed as listed_in};
ghost use Rattle.catalogue.specs.Model.{entry_by};
ghost use Rattle.catalogue.specs.Arrivals.{no_link};

use crate::node::Kind;
use crate::tree::Catalogue;
use outside::{EntryKind, ListedItem, ScanCause, Scanner};
use paths::{Name, Path};

// The name of a path that is a child of a directory.
fn child_name(path: &Path, directory: &Path) -> Option<Name>
    ensures { result ≡ child_name path.now directory.now }
{
    // "/" is its own parent, and has no name
    if path.parent() == *directory {
        path.name()
    } else {
        None
    }
}

// Whether there is such a name.
fn is_child(path: &Path, directory: &Path) -> bool
    ensures { result ≡ is_some (child_name path.now directory.now) }
{
    path.depth() > 0 && path.parent() == *directory
}

// What stands at a path that was come to; a link there is not followed further. A directory's path goes into
// the place, since no result holds one.
fn entry(kind: Kind, at: &Path, canonical: &mut Path) -> EntryKind
    ensures value { result ≡ kind_of (entry_by kind at.now) }
    ensures after { canonical.new ≡ canonical_of (entry_by kind at.now) canonical.old }
{
    if kind != Kind::Directory {
        return EntryKind::Other;
    }
    *canonical = *at;
    EntryKind::Directory
}

impl Catalogue {
    // What a path is whose last link is followed.
    fn follow(&self, path: &Path, canonical: &mut Path) -> Result<EntryKind, ScanCause>
        ensures value { result ≡ kind_in (followed (arrive_at true self.now 8 path.now)) }
        ensures after { canonical.new ≡ canonical_after (followed (arrive_at true self.now 8 path.now)) canonical.old }
    {
        let mut at = *path;
        match self.arrive(true, &mut at) {
            Ok(kind) => Ok(entry(kind, &at, canonical)),
            Err(ScanCause::NotFound) => Ok(EntryKind::Other),
            Err(cause) => Err(cause),
        }
    }

    // The child of that number, from 0, of a directory.
    fn child(&self, directory: &Path, number: usize) -> Option<ListedItem>
        ensures { result ≡ slice_get (map Ok (children directory.now self.now)) number }
    {
        // The node is found before its name is made: a name is a buffer of 255 bytes.
        let node = self
            .nodes
            .entries()
            .iter()
            .filter(|entry| is_child(&entry.key, directory))
            .nth(number)?;
        let name = child_name(&node.key, directory)?;
        Some(Ok(name))
    }
}

impl Scanner for Catalogue {
    ghost classified = { classified_in };

    ghost listed = { listed_in };

    ghost followed = { λ c p. no_link (arrive_at false c 8 p) (arrive_at true c 8 p) };

    fn classify(
        &self,
        path: &Path,
        follow: bool,
        canonical: &mut Path,
    ) -> Result<EntryKind, ScanCause> {
        let mut at = *path;
        match self.arrive(false, &mut at)? {
            Kind::Link if follow => self.follow(path, canonical),
            Kind::Link => Ok(EntryKind::NonFollowedSymlink),
            kind => Ok(entry(kind, &at, canonical)),
        }
    }

    fn item(&self, path: &Path, number: usize) -> Result<Option<ListedItem>, ScanCause> {
        let mut at = *path;
        match self.arrive(true, &mut at)? {
            Kind::Directory => Ok(self.child(&at, number)),
            Kind::File | Kind::Link => Err(ScanCause::Number(20)),
        }
    }
}

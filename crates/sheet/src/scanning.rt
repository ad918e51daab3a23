// A sheet as a scanner.
ghost use Rattle.std.specs.Prelude.{◌≡◌};
ghost use Rattle.std.specs.List.{slice_get};
ghost use Rattle.paths.specs.Order.{order_path};
ghost use Rattle.tables.specs.Entries.{held};
ghost use Rattle.sheet.specs.Rows.{classified as classified_in, listed as listed_in, said, items_for};
ghost use Rattle.sheet.specs.Model.{rows};
ghost use Rattle.sheet.specs.Unlinked.{no_link};

use crate::class::Class;
use crate::prepared::Sheet;
use outside::{EntryKind, ListedItem, ScanCause, Scanner};
use paths::Path;

impl Sheet {
    // What a path is, by the row for it.
    fn class(&self, path: &Path, follow: bool) -> Class
        ensures { result ≡ classified_in (rows self.now) path.now follow }
    {
        let classes = if follow {
            &self.followed
        } else {
            &self.unfollowed
        };
        let class = classes.get(path).copied();
        class.unwrap_or(Class::failed(ScanCause::NotFound))
    }

    // That a path has a listing, or why it has none.
    fn heading(&self, path: &Path) -> Result<(), ScanCause>
        ensures { result ≡ said (held order_path path.now (rows self.now).listings) }
    {
        self.listings
            .get(path)
            .copied()
            .unwrap_or(Err(ScanCause::NotFound))
    }

    // The item of that number, from 0, for a path.
    // A `for` that counts: tried as `filter` with `nth`, and it takes half as long again.
    fn item_for(&self, path: &Path, number: usize) -> Option<ListedItem>
        ensures { result ≡ slice_get (items_for path.now (rows self.now).items) number }
    {
        let mut left = number;
        for row in self.items.entries() {
            if row.key == *path {
                if left == 0 {
                    return Some(row.value);
                }
                left -= 1;
            }
        }
        None
    }
}

impl Scanner for Sheet {
    ghost classified = { λ s p follow. classified_in (rows s) p follow };

    ghost listed = { λ s p. listed_in (rows s) p };

    ghost followed = { λ s p. no_link p s.followed s.no_links };

    fn classify(
        &self,
        path: &Path,
        follow: bool,
        canonical: &mut Path,
    ) -> Result<EntryKind, ScanCause> {
        let class = self.class(path, follow);
        if class.kind == Ok(EntryKind::Directory) {
            *canonical = class.canonical;
        }
        class.kind
    }

    fn item(&self, path: &Path, number: usize) -> Result<Option<ListedItem>, ScanCause> {
        self.heading(path)?;
        Ok(self.item_for(path, number))
    }
}

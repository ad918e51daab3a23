// Making a sheet and changing its rows.
ghost use Rattle.std.specs.Prelude.{◌≡◌, IfOk, Ok, Err};
ghost use Rattle.sheet.specs.Edits.{blank, classified_as, headed_as, added, struck};
ghost use Rattle.sheet.specs.Model.{rows};

use crate::class::Class;
use crate::prepared::Sheet;
use crate::refusal::ClassRefusal;
use outside::{ListedItem, ScanCause};
use paths::Path;
use std::alloc::{AllocError, Global};
use tables::{Entry, NoPlace, Queue, Table};

impl Sheet {
    // No row.
    pub fn new(heap: Global) -> Result<Sheet, AllocError>
        ensures { IfOk result (λ s. rows s ≡ blank) }
    {
        let followed = Table::new(heap)?;
        let unfollowed = Table::new(heap)?;
        let listings = Table::new(heap)?;
        let items = Queue::new(heap)?;
        Ok(Sheet {
            followed,
            unfollowed,
            listings,
            items,
        })
    }

    // Sets what a path is, asked for with that follow mark, in place of what was set.
    pub fn classify_as(
        &mut self,
        path: &Path,
        follow: bool,
        class: Class,
    ) -> Result<(), ClassRefusal>
        ensures value { result ≡ (classified_as path.now follow class (rows self.old)).0 }
        ensures after { rows self.new ≡ (classified_as path.now follow class (rows self.old)).1 }
    {
        if follow && class.is_link() {
            return Err(ClassRefusal::FollowedLink);
        }
        if follow {
            self.followed.insert(*path, class)?;
        } else {
            self.unfollowed.insert(*path, class)?;
        }
        Ok(())
    }

    // A path has a listing, with no items yet, or a cause in place of one.
    fn head(&mut self, path: &Path, heading: Result<(), ScanCause>) -> Result<(), NoPlace>
        ensures value { result ≡ (headed_as path.now heading (rows self.old)).0 }
        ensures after { rows self.new ≡ (headed_as path.now heading (rows self.old)).1 }
    {
        self.listings.insert(*path, heading)?;
        self.items.retain(|row| row.key != *path);
        Ok(())
    }

    // Sets a listing with no items yet, in place of what was set.
    pub fn list(&mut self, path: &Path) -> Result<(), NoPlace>
        ensures value { result ≡ (headed_as path.now (Ok tt) (rows self.old)).0 }
        ensures after { rows self.new ≡ (headed_as path.now (Ok tt) (rows self.old)).1 }
    {
        self.head(path, Ok(()))
    }

    // Sets a cause as the listing, in place of what was set.
    pub fn unlist(&mut self, path: &Path, cause: ScanCause) -> Result<(), NoPlace>
        ensures value { result ≡ (headed_as path.now (Err cause) (rows self.old)).0 }
        ensures after { rows self.new ≡ (headed_as path.now (Err cause) (rows self.old)).1 }
    {
        self.head(path, Err(cause))
    }

    // One more item for a path, behind those that it has. It shows only in a listing that stands already.
    pub fn add(&mut self, path: &Path, item: ListedItem) -> Result<(), NoPlace>
        ensures value { result ≡ (added path.now item (rows self.old)).0 }
        ensures after { rows self.new ≡ (added path.now item (rows self.old)).1 }
    {
        self.items.push_back(Entry {
            key: *path,
            value: item,
        })
    }

    // Removes the rows at a path and below it. A closure takes rows of one type, so each list has its own.
    pub fn strike(&mut self, path: &Path)
        ensures { rows self.new ≡ struck path.now (rows self.old) }
    {
        self.followed.retain(|row| !row.key.starts_with(path));
        self.unfollowed.retain(|row| !row.key.starts_with(path));
        self.listings.retain(|row| !row.key.starts_with(path));
        self.items.retain(|row| !row.key.starts_with(path));
    }
}

// A sheet: at most 512 classifications for each follow mark, 256 listings, and 2048 items of listings.
ghost use Rattle.std.specs.Prelude.{◌≡◌, true};
ghost use Rattle.sheet.specs.Unlinked.{unlinked};

use crate::class::Class;
use outside::{ListedItem, ScanCause};
use paths::Path;
use tables::{Entry, Queue, Table};

// A row stands under the path that it is for. Two tables, since only the one for following owes that no row is a link;
// one queue with the items of all listings, in the order given: a list in each would need memory later.
// No `Model` over `Rows`: the scanner's law is of every value, and `Rows` may have a followed link.
#[derive(Drop)]
pub struct Sheet {
    pub(crate) followed: Table<Path, Class, 512>,
    pub(crate) unfollowed: Table<Path, Class, 512>,
    pub(crate) listings: Table<Path, Result<(), ScanCause>, 256>,
    pub(crate) items: Queue<Entry<Path, ListedItem>, 2048>,
    ghost no_links: { unlinked followed ≡ true },
}

// Whether there is a place for what a watch brings.
ghost use Rattle.std.specs.Prelude.{◌≡◌};
ghost use Rattle.rules.specs.Edits.{room_for_path, room_for_record, room_for_guard};

use crate::inner::Inner;
use paths::Path;
use rules::{Owned, Root};

impl Inner {
    // Places for a logical path and an owner.
    pub fn room_for_path(&self, owner: &Owned) -> bool
        ensures { result ≡ room_for_path self.now owner.now.path owner.now.root }
    {
        self.logical.has_place(&owner.path) && self.owners.has_place(owner)
    }

    // A place for one record more.
    pub fn room_for_record(&self) -> bool
        ensures { result ≡ room_for_record self.now }
    {
        self.records.len() < 72
    }

    // Places for a guard and a guarded root.
    pub fn room_for_guard(&self, path: &Path, root: &Root) -> bool
        ensures { result ≡ room_for_guard self.now path.now root.now }
    {
        self.guards.has_place(path) && self.guarded.has_place(root)
    }
}

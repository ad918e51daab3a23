// Entering a path that needs no request, or whose watch was done.
ghost use Rattle.std.specs.Prelude.{◌≡◌};
ghost use Rattle.rules.specs.Adding.{enter_watched, add_alias, renew_mark};
ghost use Rattle.acting.specs.Model.{Ends};

use crate::progress::Progress;
use rules::{AddResult, Identity, Owned};
use tables::NoPlace;

impl Progress {
    // A watch that is in order: record, logical path and owner are entered.
    pub fn enter_watched(
        &mut self,
        owner: &Owned,
        identity: &Identity,
    ) -> Result<AddResult, NoPlace>
        ensures { Ends (enter_watched owner.now.path identity.now owner.now.root) self.old result self.new }
    {
        self.inner.drop_failure(&owner.path);
        self.inner.put_record(identity, &owner.path)?;
        self.inner.put_logical(&owner.path, identity)?;
        self.inner.put_owner(owner)?;
        Ok(AddResult::Added)
    }

    // A recorded identity: the path joins as an alias.
    pub fn add_alias(&mut self, owner: &Owned, identity: &Identity) -> Result<AddResult, NoPlace>
        ensures { Ends (add_alias owner.now.path identity.now owner.now.root) self.old result self.new }
    {
        if !self.inner.room_for_path(owner) {
            return Err(NoPlace);
        }
        self.inner.drop_failure(&owner.path);
        self.inner.put_logical(&owner.path, identity)?;
        self.inner.put_owner(owner)?;
        Ok(AddResult::Added)
    }

    // Already logical, with the same identity: the root's mark is renewed.
    pub fn renew_mark(&mut self, owner: &Owned) -> Result<AddResult, NoPlace>
        ensures { Ends (renew_mark owner.now.path owner.now.root) self.old result self.new }
    {
        self.inner.put_owner(owner)?;
        self.inner.drop_failure(&owner.path);
        Ok(AddResult::Added)
    }
}

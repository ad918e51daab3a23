// Where a path leads once the links on it are passed.
ghost use Rattle.std.specs.Prelude.{◌≡◌};
ghost use Rattle.catalogue.specs.Ways.{arrive as arrive_at};
ghost use Rattle.catalogue.specs.Model.{replied, come_to};

use crate::node::Kind;
use crate::tree::Catalogue;
use outside::ScanCause;
use paths::Path;

impl Catalogue {
    // Goes on from the path in the place, which then holds the path that was come to: no result holds one.
    pub(crate) fn arrive(&self, last: bool, place: &mut Path) -> Result<Kind, ScanCause>
        ensures value { result ≡ replied (arrive_at last self.now 8 place.old) }
        ensures after { place.new ≡ come_to (arrive_at last self.now 8 place.old) place.new }
    {
        let mut next = *place;
        for left in (0..=8).rev() {
            let passed = self.pass(last, place, &mut next);
            if let Some(kind) = passed.map_err(|stop| stop.cause(left))? {
                return Ok(kind);
            }
            *place = next;
        }
        Err(ScanCause::Number(40))
    }
}

// The directory above a root that guards it.
ghost use Rattle.std.specs.Prelude.{◌≡◌};
ghost use Rattle.rules.specs.Looking.{guard_place};
ghost use Rattle.looking.specs.Model.{place_of};

use crate::ascent::ascend;
use crate::descent::descend;
use crate::place::Place;
use outside::{ScanCause, Scanner};
use paths::Path;
use std::ops::ControlFlow;

// Whether a directory above the root guards it, which the place then holds; "/" has none above.
// With following it is the nearest; without following, the last of the unbroken run from "/".
#[tactic(auto, unfolding(rules::specs::Looking::guard_place))]
pub fn guard_place<S: Scanner>(
    scanner: &S,
    follow: bool,
    path: &Path,
    place: &mut Place,
) -> Result<bool, ScanCause>
    ensures { place_of result place.new ≡ guard_place (S.Scanner.classified scanner.now) follow path.now }
{
    if path.depth() == 0 {
        return Ok(false);
    }
    let parent = path.parent();
    if follow {
        return ascend(scanner, &parent, place);
    }
    match descend(scanner, &parent, place) {
        ControlFlow::Continue(()) => Ok(true),
        ControlFlow::Break(found) => found,
    }
}

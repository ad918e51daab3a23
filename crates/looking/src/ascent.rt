// The nearest directory at or above a path, with following.
ghost use Rattle.std.specs.Prelude.{◌≡◌};
ghost use Rattle.rules.specs.Looking.{ascend};
ghost use Rattle.looking.specs.Model.{place_of};

use crate::place::{Place, visit};
use outside::{ScanCause, Scanner};
use paths::Path;

// A path has at most 8 names, so the recursion is shallow.
#[tactic(auto, using(crate::proofs::Steps::ascend_settled), unfolding(rules::specs::Looking::ascend))]
pub(crate) fn ascend<S: Scanner>(
    scanner: &S,
    path: &Path,
    place: &mut Place,
) -> Result<bool, ScanCause>
    ensures { place_of result place.new ≡ ascend (S.Scanner.classified scanner.now) path.now }
{
    if visit(scanner, true, path, place)? {
        return Ok(true);
    }
    if path.depth() == 0 {
        return Ok(false);
    }
    ascend(scanner, &path.parent(), place)
}

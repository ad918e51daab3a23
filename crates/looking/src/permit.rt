// Whether the filterer allows a path for a root.
ghost use Rattle.std.specs.Prelude.{◌≡◌};
ghost use Rattle.rules.specs.Looking.{candidate_allowed};
ghost use Rattle.looking.specs.Model.{permit_of};

use outside::{FilterFault, Filterer};
use paths::Path;

// Each path from just below the root down to this one; the place then holds the path that a fault is of, since no result holds a path.
// A path has at most 8 names, so the recursion is shallow.
#[tactic(auto, using(crate::proofs::Steps::allowed_same), unfolding(rules::specs::Looking::candidate_allowed))]
pub fn candidate_allowed<F: Filterer>(
    filterer: &F,
    root: &Path,
    path: &Path,
    place: &mut Path,
) -> Result<bool, FilterFault>
    ensures { permit_of result place.new ≡ candidate_allowed (F.Filterer.verdict filterer.now) root.now path.now }
{
    if *path == *root {
        return Ok(true);
    }
    if path.depth() == 0 {
        return Ok(false);
    }
    if !candidate_allowed(filterer, root, &path.parent(), place)? {
        return Ok(false);
    }
    *place = *path;
    filterer.check_dir(path)
}

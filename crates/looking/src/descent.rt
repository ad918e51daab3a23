// The walk from "/" down to a path, without following.
ghost use Rattle.std.specs.Prelude.{◌≡◌, false, Ok};
ghost use Rattle.std.specs.ControlFlow.{ForContinue};
ghost use Rattle.rules.specs.Looking.{landed, descend};
ghost use Rattle.looking.specs.Model.{place_of, descent_of};

use crate::place::{Place, visit};
use outside::{ScanCause, Scanner};
use paths::Path;
use std::ops::ControlFlow;

// One directory more, which the place then holds, or the walk ends with what was found before.
fn landed<S: Scanner>(
    scanner: &S,
    before: bool,
    path: &Path,
    place: &mut Place,
) -> ControlFlow<Result<bool, ScanCause>>
    ensures value { descent_of result place.new ≡ landed path.now (place_of (Ok before) place.old) (S.Scanner.classified scanner.now path.now false) }
    ensures there { ForContinue result (λ _. place.new.path ≡ path.now) }
{
    match visit(scanner, false, path, place) {
        Ok(true) => ControlFlow::Continue(()),
        Ok(false) => ControlFlow::Break(Ok(before)),
        Err(cause) => ControlFlow::Break(Err(cause)),
    }
}

// Goes on as long as all are directories; a path has at most 8 names, so the recursion is shallow.
#[tactic(auto, unfolding(rules::specs::Looking::descend))]
pub(crate) fn descend<S: Scanner>(
    scanner: &S,
    path: &Path,
    place: &mut Place,
) -> ControlFlow<Result<bool, ScanCause>>
    ensures value { descent_of result place.new ≡ descend (S.Scanner.classified scanner.now) path.now }
    ensures there { ForContinue result (λ _. place.new.path ≡ path.now) }
{
    if path.depth() == 0 {
        return landed(scanner, false, path, place);
    }
    descend(scanner, &path.parent(), place)?;
    landed(scanner, true, path, place)
}

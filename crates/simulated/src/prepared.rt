// An answer that is prepared for a backend to give.
ghost use Rattle.std.specs.Prelude.{◌≡◌, Some, None};
ghost use Rattle.outside.specs.Requests.{done as is_done, failed as has_failed};

use outside::{BackendCause, Carried};
use paths::Path;
use std::marker::Model;

// The path of a cause stands beside the outcome, since no result holds a path.
#[derive(Clone, Copy)]
pub struct Prepared {
    pub(crate) outcome: Result<(), BackendCause>,
    pub(crate) carried: Carried,
}

impl Model for Prepared {
    ghost use Rattle.outside.specs.Requests.{Answer};
    ghost use Rattle.outside.specs.Model.{answered};
    ghost use Rattle.simulated.specs.Prepared.{outcome_of, path_of, bare, outcome_kept, path_kept};

    ghost Value = { Answer };

    ghost view = { λ a. answered a.outcome a.carried };

    ghost invariant = { λ a. bare a.outcome a.carried };

    ghost inverse = { λ a. record { outcome = outcome_of a; carried = path_of a } };

    ghost inverse_ok = { λ a h i. record { outcome = outcome_kept a.outcome a.carried i; carried = path_kept a.outcome a.carried h i } };
}

impl Prepared {
    pub fn done() -> Prepared
        ensures { result ≡ is_done }
    {
        Prepared {
            outcome: Ok(()),
            carried: Carried::nothing(),
        }
    }

    pub fn failed(cause: BackendCause) -> Prepared
        ensures { result ≡ has_failed cause None }
    {
        Prepared {
            outcome: Err(cause),
            carried: Carried::nothing(),
        }
    }

    pub fn failed_at(cause: BackendCause, path: &Path) -> Prepared
        ensures { result ≡ has_failed cause (Some path.now) }
    {
        let mut answer = Prepared::failed(cause);
        answer.carried.put(path);
        answer
    }
}

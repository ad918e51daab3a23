// A place for the path that a backend's cause carries, or for none.
ghost use Rattle.std.specs.Prelude.{◌≡◌, Some, None};
ghost use Rattle.std.specs.Option.{option_map};

use paths::Path;
use std::marker::Model;

// A flag with the path beside it, since no enum holds a path; where none stands, the path is "/".
#[derive(Clone, Copy)]
pub struct Carried {
    path: Path,
    stands: bool,
}

impl Model for Carried {
    ghost use Rattle.std.specs.Prelude.{Option};
    ghost use Rattle.paths.specs.Names.{Names};
    ghost use Rattle.outside.specs.Places.{seen, tidy, kept, stood, kept_seen, stood_seen};

    ghost Value = { Option Names };

    ghost view = { λ c. seen c.path c.stands };

    ghost invariant = { λ c. tidy c.path c.stands };

    ghost inverse = { λ o. record { path = kept o; stands = stood o } };

    ghost inverse_ok = { λ c h i. record { path = kept_seen c.path c.stands h i; stands = stood_seen c.path c.stands i } };
}

impl Carried {
    pub fn nothing() -> Carried
        ensures { result ≡ None }
    {
        Carried {
            path: Path::root(),
            stands: false,
        }
    }

    pub fn put(&mut self, path: &Path)
        ensures { self.new ≡ Some path.now }
    {
        self.path = *path;
        self.stands = true;
    }

    pub fn clear(&mut self)
        ensures { self.new ≡ None }
    {
        *self = Carried::nothing();
    }

    pub fn path(&self) -> Option<&Path>
        ensures { option_map (λ x. x.now) result ≡ self.now }
    {
        if self.stands { Some(&self.path) } else { None }
    }
}

// Equality and order of paths.
ghost use Rattle.std.specs.Prelude.{◌≡◌, refl};
ghost use Rattle.std.specs.Ordering.{as_partial_cmp};
ghost use Rattle.paths.specs.Names.{same_path};
ghost use Rattle.paths.specs.Order.{order_path};
ghost use Rattle.paths.specs.Equal.{names_equiv, path_eq_laws, path_total, path_ties, path_partial};

use super::Path;
use std::cmp::Ordering;

// By hand: a derive would compare the fields, where clauses speak of the names.
impl PartialEq for Path {
    ghost eq = { same_path };

    ghost laws = { path_eq_laws };

    fn eq(&self, other: &Path) -> bool {
        self.spelled.bytes() == other.spelled.bytes()
    }
}

impl Eq for Path {
    ghost laws = { names_equiv };
}

impl PartialOrd for Path {
    ghost partial_cmp = { as_partial_cmp order_path };

    ghost laws = { path_partial };

    fn partial_cmp(&self, other: &Path) -> Option<Ordering> {
        Some(self.cmp(other))
    }
}

// By names from "/" down, a beginning first. No derive gives it: a slash comes before every byte.
impl Ord for Path {
    ghost cmp = { order_path };

    ghost total = { path_total };

    ghost matches_partial_cmp = { λ p q. refl };

    ghost matches_eq = { path_ties };

    fn cmp(&self, other: &Path) -> Ordering {
        self.order(other)
    }
}

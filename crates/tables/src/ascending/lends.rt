// A table's value lent under its key, to be changed in place.
ghost use Rattle.std.specs.Prelude.{◌≡◌};
ghost use Rattle.std.specs.Borrow.{follows_so, sem};
ghost use Rattle.std.specs.Option.{ghost_name_of as name_of, option_map};
ghost use Rattle.tables.specs.contracts.ascending.Table.{the_row};
ghost use Rattle.tables.specs.Entries.{held, revalued};

use super::Table;

impl<K: Ord + Copy, V: Copy, const N: usize> Table<K, V, N> {
    // When the loan ends, the value under the key is what was left there, and all else is as it was.
    pub fn get_mut(&mut self, key: &K) -> Option<&mut V>
        ensures* lends { sem 𝓛 (follows_so (the_row K.row V.row N.row (record { cmp = K.cmp }) (record { eq = K.eq }) (record { partial_cmp = K.partial_cmp })) V.row self.entry.ghost_name (name_of result) (λ w t. t ≡ revalued K.cmp key.now (λ _. w) self.old) (λ t. t ≡ self.old)) }
        ensures finds { option_map (λ x. x.now) result ≡ held K.cmp key.now self.old }
    {
        match self.search(key) {
            Ok(at) => Some(&mut self.items[at].value),
            Err(_) => None,
        }
    }
}

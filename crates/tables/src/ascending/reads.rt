// What a table answers of its entries.
ghost use Rattle.std.specs.Prelude.{◌≡◌, ◌≤◌, true, length, filter, if◌then◌else◌, nat_lt, ◌==◌};
ghost use Rattle.std.specs.Fn.{ComputesKey};
ghost use Rattle.std.specs.Option.{option_map};
ghost use Rattle.std.specs.List.{slice_get as nth_of};
ghost use Rattle.tables.specs.Entries.{ascending, held, sought, under};
ghost use Rattle.tables.specs.Lists.{any};

use super::Table;
use crate::entry::Entry;
use crate::search;

impl<K: Ord + Copy, V: Copy, const N: usize> Table<K, V, N> {
    pub fn len(&self) -> usize
        ensures value { result ≡ length self.now }
        ensures within { result ≤ N }
    {
        self.items.len()
    }

    pub fn is_empty(&self) -> bool
        ensures { result ≡ (length self.now == 0) }
    {
        self.items.is_empty()
    }

    pub fn entries(&self) -> &[Entry<K, V>]
        ensures value { result.now ≡ self.now }
        ensures within { length result.now ≤ N }
        ensures ascends { ascending K.cmp result.now ≡ true }
    {
        &self.items
    }

    // The place of the entry under the key, or where it would be put.
    pub(super) fn search(&self, key: &K) -> Result<usize, usize>
        ensures { result ≡ sought K.cmp key.now self.now }
    {
        self.items.binary_search_by(|e| e.key.cmp(key))
    }

    pub fn get(&self, key: &K) -> Option<&V>
        ensures { option_map (λ x. x.now) result ≡ held K.cmp key.now self.now }
    {
        match self.search(key) {
            Ok(at) => Some(&self.items[at].value),
            Err(_) => None,
        }
    }

    pub fn contains_key(&self, key: &K) -> bool
        ensures { result ≡ any (under K.cmp key.now) self.now }
    {
        self.search(key).is_ok()
    }

    // Its own place, or a free one.
    pub fn has_place(&self, key: &K) -> bool
        ensures { result ≡ (if any (under K.cmp key.now) self.now then true else nat_lt (length self.now) N) }
    {
        self.contains_key(key) || self.items.len() < N
    }

    // The entry of that number, from 0, among those that pass.
    pub fn nth<F: Fn(&Entry<K, V>) -> bool>(&self, passes: F, number: usize) -> Option<&Entry<K, V>>
        requires { F.IsAlwaysCallable passes }
        ensures { (test : _) → ComputesKey F.Fn test passes → option_map (λ x. x.now) result ≡ nth_of (filter test self.now) number }
    {
        search::nth(&self.items, passes, number)
    }

    pub fn any<F: Fn(&Entry<K, V>) -> bool>(&self, passes: F) -> bool
        requires { F.IsAlwaysCallable passes }
        ensures { (test : _) → ComputesKey F.Fn test passes → result ≡ any test self.now }
    {
        search::any(&self.items, passes)
    }
}

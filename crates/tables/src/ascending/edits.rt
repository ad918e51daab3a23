// What changes a table's entries.
ghost use Rattle.std.specs.Prelude.{◌≡◌, false, not, [], IfOk, filter};
ghost use Rattle.std.specs.Fn.{ComputesKey};
ghost use Rattle.tables.specs.Entries.{entered, under};
ghost use Rattle.tables.specs.Lists.{any, without};

use super::Table;
use crate::entry::Entry;
use crate::full::NoPlace;
use std::alloc::{AllocError, Global};

impl<K: Ord + Copy, V: Copy, const N: usize> Table<K, V, N> {
    pub fn new(heap: Global) -> Result<Self, AllocError>
        ensures { IfOk result (λ t. t ≡ []) }
    {
        let items = Vec::with_capacity(heap, N)?;
        Ok(Table { items })
    }

    // A key that stands there keeps its place, and a full table still takes a new value for it.
    pub fn insert(&mut self, key: K, value: V) -> Result<(), NoPlace>
        ensures value { result ≡ (entered K.cmp N key value self.old).0 }
        ensures items { self.new ≡ (entered K.cmp N key value self.old).1 }
    {
        match self.search(&key) {
            Ok(at) => self.items[at].value = value,
            Err(at) => {
                if self.items.len() >= N {
                    return Err(NoPlace);
                }
                // There is room, so that this cannot fail.
                let _ = self.items.insert(at, Entry { key, value });
            }
        }
        Ok(())
    }

    pub fn remove(&mut self, key: &K) -> bool
        ensures value { result ≡ any (under K.cmp key.now) self.old }
        ensures items { self.new ≡ without (under K.cmp key.now) self.old }
        ensures gone { any (under K.cmp key.now) self.new ≡ false }
    {
        match self.search(key) {
            Ok(at) => {
                let _ = self.items.remove(at);
                true
            }
            Err(_) => false,
        }
    }

    // Whatever stands under the key goes.
    pub fn forget(&mut self, key: &K)
        ensures { self.new ≡ filter (λ e. not (under K.cmp key.now e)) self.old }
    {
        let _ = self.remove(key);
    }

    pub fn retain<F: Fn(&Entry<K, V>) -> bool>(&mut self, keep: F)
        requires { F.IsAlwaysCallable keep }
        ensures { (test : _) → ComputesKey F.Fn test keep → self.new ≡ filter test self.old }
    {
        self.items.retain(keep);
    }

    pub fn clear(&mut self)
        ensures { self.new ≡ [] }
    {
        self.items.clear();
    }
}

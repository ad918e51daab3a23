// What changes a queue's entries.
ghost use Rattle.std.specs.Prelude.{◌≡◌, ◌≤◌, not, [], ◌∷◌, ◌++◌, length, Err, IfOk, filter};
ghost use Rattle.std.specs.Fn.{ComputesKey};
ghost use Rattle.std.specs.List.{insert};
ghost use Rattle.tables.specs.Lists.{head, placed, tail};
ghost use Rattle.tables.specs.Room.{fitted};

use super::Queue;
use crate::full::NoPlace;
use crate::search;
use std::alloc::{AllocError, Global};

impl<T: Copy, const N: usize> Queue<T, N> {
    pub fn new(heap: Global) -> Result<Self, AllocError>
        ensures { IfOk result (λ q. q ≡ []) }
    {
        let items = Vec::with_capacity(heap, N)?;
        Ok(Queue { items })
    }

    // Puts x at that place, if there is one more.
    fn put_at(&mut self, at: usize, x: T) -> Result<(), NoPlace>
        requires { at ≤ length self.old }
        ensures value { result ≡ (fitted N self.old (insert self.old at x)).0 }
        ensures items { self.new ≡ (fitted N self.old (insert self.old at x)).1 }
    {
        if self.items.len() >= N {
            return Err(NoPlace);
        }
        // There is room, so that this cannot fail.
        let _ = self.items.insert(at, x);
        Ok(())
    }

    pub fn push_back(&mut self, x: T) -> Result<(), NoPlace>
        ensures value { result ≡ (fitted N self.old (self.old ++ x ∷ [])).0 }
        ensures items { self.new ≡ (fitted N self.old (self.old ++ x ∷ [])).1 }
    {
        // Not by `put_at`: an insertion behind the last takes several times as long.
        if self.items.len() >= N {
            return Err(NoPlace);
        }
        self.items.push_reserved(x);
        Ok(())
    }

    pub fn push_front(&mut self, x: T) -> Result<(), NoPlace>
        ensures value { result ≡ (fitted N self.old (x ∷ self.old)).0 }
        ensures items { self.new ≡ (fitted N self.old (x ∷ self.old)).1 }
    {
        self.put_at(0, x)
    }

    // Puts x behind the leading entries that come before it.
    pub fn insert<F: Fn(&T) -> bool>(&mut self, x: T, is_before: F) -> Result<(), NoPlace>
        requires { F.IsAlwaysCallable is_before }
        ensures value { (test : _) → ComputesKey F.Fn test is_before → result ≡ (fitted N self.old (placed (λ y. not (test y)) x self.old)).0 }
        ensures items { (test : _) → ComputesKey F.Fn test is_before → self.new ≡ (fitted N self.old (placed (λ y. not (test y)) x self.old)).1 }
        ensures full { N ≤ length self.old → (result ≡ Err (record {})) × (self.new ≡ self.old) }
    {
        // A full queue is refused before any entry is asked.
        if self.items.len() >= N {
            return Err(NoPlace);
        }
        let at = search::leading(&self.items, is_before);
        self.put_at(at, x)
    }

    pub fn pop_front(&mut self) -> Option<T>
        ensures value { result ≡ head self.old }
        ensures items { self.new ≡ tail self.old }
    {
        if self.items.is_empty() {
            return None;
        }
        Some(self.items.remove(0))
    }

    pub fn retain<F: Fn(&T) -> bool>(&mut self, keep: F)
        requires { F.IsAlwaysCallable keep }
        ensures { (test : _) → ComputesKey F.Fn test keep → self.new ≡ filter test self.old }
    {
        self.items.retain(keep);
    }

    pub fn clear(&mut self)
        ensures { self.new ≡ [] }
    {
        self.items.clear();
    }
}

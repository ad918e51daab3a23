// What a queue answers of its entries.
ghost use Rattle.std.specs.Prelude.{◌≡◌, ◌≤◌, length, ◌==◌};
ghost use Rattle.std.specs.Option.{option_map};
ghost use Rattle.std.specs.Fn.{ComputesKey};
ghost use Rattle.tables.specs.Lists.{any, head};

use super::Queue;
use crate::search;

impl<T: Copy, const N: usize> Queue<T, N> {
    pub fn len(&self) -> usize
        ensures value { result ≡ length self.now }
        ensures within { result ≤ N }
    {
        self.items.len()
    }

    pub fn is_empty(&self) -> bool
        ensures { result ≡ (length self.now == 0) }
    {
        self.items.is_empty()
    }

    pub fn entries(&self) -> &[T]
        ensures value { result.now ≡ self.now }
        ensures within { length result.now ≤ N }
    {
        &self.items
    }

    pub fn first(&self) -> Option<&T>
        ensures { option_map (λ x. x.now) result ≡ head self.now }
    {
        self.items.first()
    }

    pub fn any<F: Fn(&T) -> bool>(&self, passes: F) -> bool
        requires { F.IsAlwaysCallable passes }
        ensures { (test : _) → ComputesKey F.Fn test passes → result ≡ any test self.now }
    {
        search::any(&self.items, passes)
    }
}

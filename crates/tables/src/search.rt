// Searches of a list by a test of the caller's, each proved here and not inside a method.
ghost use Rattle.std.specs.Prelude.{◌≡◌, ◌≤◌, length, filter};
ghost use Rattle.std.specs.Fn.{ComputesKey};
ghost use Rattle.std.specs.Option.{option_map};
ghost use Rattle.std.specs.List.{prefix_len, slice_get as nth_of};
ghost use Rattle.tables.specs.Lists.{any};

// Whether an entry passes.
pub(crate) fn any<T, F: Fn(&T) -> bool>(items: &[T], passes: F) -> bool
    requires { F.IsAlwaysCallable passes }
    ensures { (test : _) → ComputesKey F.Fn test passes → result ≡ any test items.now }
{
    items.iter().any(passes)
}

// The entry of that number, from 0, among those that pass.
pub(crate) fn nth<'a, T, F: Fn(&T) -> bool>(
    items: &'a [T],
    passes: F,
    number: usize,
) -> Option<&'a T>
    requires { F.IsAlwaysCallable passes }
    ensures { (test : _) → ComputesKey F.Fn test passes → option_map (λ x. x.now) result ≡ nth_of (filter test items.now) number }
{
    items.iter().filter(|x| passes(x)).nth(number)
}

// How many entries pass before the first that does not.
pub(crate) fn leading<T, F: Fn(&T) -> bool>(items: &[T], passes: F) -> usize
    requires { F.IsAlwaysCallable passes }
    ensures value { (test : _) → ComputesKey F.Fn test passes → result ≡ prefix_len test items.now }
    ensures within { result ≤ length items.now }
{
    let end = items.iter().position(|x| !passes(x));
    end.unwrap_or(items.len())
}

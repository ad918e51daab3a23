// Going up and down from a path, its text, and how paths stand to each other.
ghost use Rattle.std.specs.Prelude.{◌≡◌, ℕ, true, [], ◌∷◌, length};
ghost use Rattle.paths.specs.Names.{good, up, last, text as text_of, starts_with, within};
ghost use Rattle.paths.specs.Order.{order_path};
ghost use Rattle.paths.specs.Texts.{limited};
ghost use Rattle.paths.specs.Laws.{ReadsBack, PartialOrder, TotalOrder, AboveFirst};
ghost use Rattle.paths.specs.Model.{numbered, replied, placed};

use super::Path;
use crate::bytes;
use crate::name::Name;
use crate::refusal::Refusal;
use crate::spelled::Spelled;
use std::cmp::Ordering;

impl Path {
    pub fn root() -> Path
        ensures { result ≡ [] }
    {
        Path {
            spelled: Spelled::root(),
        }
    }

    // How many names.
    pub fn depth(&self) -> usize
        ensures { result ≡ length self.now }
    {
        self.spelled.depth()
    }

    // The bytes that it is written with.
    pub fn text(&self) -> &[u8]
        ensures value { result.now ≡ text_of self.now }
        ensures good { good self.now ≡ true }
        ensures within { within self.now ≡ true }
        ensures laws { ReadsBack }
    {
        if self.depth() == 0 {
            return b"/";
        }
        self.spelled.bytes() // each name behind its slash
    }

    // Puts the child of that name into the place that the caller lends, since no result holds a path.
    pub fn join(&self, name: &Name, child: &mut Path) -> Result<(), Refusal>
        ensures value { numbered result ≡ replied (limited (name.now ∷ self.now)) }
        ensures after { child.new ≡ placed (limited (name.now ∷ self.now)) child.old }
    {
        let bytes = name.bytes();
        if self.depth() >= 8 || bytes.len() >= 64 - self.spelled.bytes().len() {
            return Err(Refusal::TooDeep);
        }
        *child = *self;
        child.spelled.push(bytes);
        Ok(())
    }

    // The directory above, or "/" itself.
    pub fn parent(&self) -> Path
        ensures { result ≡ up self.now }
    {
        let mut above = *self;
        above.spelled.pop();
        above
    }

    // Its innermost name; "/" has none.
    pub fn name(&self) -> Option<Name>
        ensures { result ≡ last self.now }
    {
        Name::new(self.spelled.last()?)
    }

    // Whether it is `top` or lies below it.
    pub fn starts_with(&self, top: &Path) -> bool
        ensures value { result ≡ starts_with self.now top.now }
        ensures laws { PartialOrder }
    {
        let Some(rest) = self.spelled.bytes().strip_prefix(top.spelled.bytes()) else {
            return false;
        };
        rest.is_empty() || rest[0] == b'/'
    }

    // What `cmp` answers by, with what it comes to: a total order, where a path comes no later than what lies below it.
    pub fn order(&self, other: &Path) -> Ordering
        ensures value { result ≡ order_path self.now other.now }
        ensures laws { TotalOrder order_path }
        ensures first { AboveFirst }
    {
        bytes::order(self.spelled.bytes(), other.spelled.bytes())
    }
}

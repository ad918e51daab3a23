// A backend watches directories: its book is the set of paths that it watches.
ghost use Rattle.std.specs.Prelude.{◌≡◌, Bool, true, is_ok, None};
ghost use Rattle.paths.specs.Names.{Names};
ghost use Rattle.outside.specs.Requests.{Request, watch as asks_watch, unwatch as asks_unwatch, Answer, Means};
ghost use Rattle.outside.specs.Model.{answered};

use crate::carried::Carried;
use crate::cause::BackendCause;
use paths::Path;

pub trait Backend {
    // The paths on the book.
    ghost book: { Self → Names → Bool };

    // Between two states of a backend this request was made and that answer came. Only a call shows it.
    ghost did: { Self → Request → Answer → Self → Type 0 };

    // A cause puts the path that it carries into the place that the caller lends, since no enum holds a path.
    fn watch(&mut self, path: &Path, carried: &mut Carried) -> Result<(), BackendCause>
        ensures answer { did self.old (asks_watch path.now) (answered result carried.new) self.new }
        ensures none { is_ok result ≡ true → carried.new ≡ None };

    fn unwatch(&mut self, path: &Path, carried: &mut Carried) -> Result<(), BackendCause>
        ensures answer { did self.old (asks_unwatch path.now) (answered result carried.new) self.new }
        ensures none { is_ok result ≡ true → carried.new ≡ None };

    ghost means: { (b : Self) (q : Request) (a : Answer) (c : Self) → did b q a c → Means (book b) q a (book c) };
}

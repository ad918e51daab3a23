// A roll of at most 1024 prepared answers, with a book of at most 128 paths.
ghost use Rattle.std.specs.Prelude.{◌≡◌, true, is_ok, IfOk, None};
ghost use Rattle.outside.specs.Model.{answered};
ghost use Rattle.simulated.specs.Roll.{blank, reply, filed, next as next_of, used};

use crate::path_set::PathSet;
use crate::prepared::Prepared;
use outside::{BackendCause, Carried};
use std::alloc::{AllocError, Global};
use tables::{NoPlace, Queue};

pub mod watching;

// No model: its fields have theirs, and clauses see answers and paths.
#[derive(Drop)]
pub struct Roll {
    answers: Queue<Prepared, 1024>,
    book: PathSet<128>,
}

impl Roll {
    pub fn new(heap: Global) -> Result<Roll, AllocError>
        ensures { IfOk result (λ x. x ≡ blank) }
    {
        let answers = Queue::new(heap)?;
        let book = PathSet::new(heap)?;
        Ok(Roll { answers, book })
    }

    pub fn prepare(&mut self, answer: Prepared) -> Result<(), NoPlace>
        ensures value { result ≡ reply answer self.old }
        ensures after { self.new ≡ filed answer self.old }
    {
        self.answers.push_back(answer)
    }

    // Gives the first answer, which is used up.
    fn next(&mut self, carried: &mut Carried) -> Result<(), BackendCause>
        ensures value { answered result carried.new ≡ next_of self.old.answers }
        ensures none { is_ok result ≡ true → carried.new ≡ None }
        ensures after { self.new ≡ used self.old }
    {
        let answer = self.answers.pop_front().unwrap_or_else(Prepared::done);
        *carried = answer.carried;
        answer.outcome
    }
}

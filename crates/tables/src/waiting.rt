// A queue of at most N entries, whose memory is had once, so that no later call can fail for want of it.
// Not a VecDeque: `entries` lends all of them as one slice.
use std::marker::Model;

mod edits;
mod reads;

#[derive(Drop)]
pub struct Queue<T, const N: usize> {
    items: Vec<T>,
}

impl<T, const N: usize> Model for Queue<T, N> {
    ghost use Rattle.std.specs.Prelude.{List, ◌≤◌, vec_len, vec_capacity};

    ghost Value = { List T };

    ghost view = { λ q. q.items.items };

    ghost invariant = { λ q. (vec_len q.items ≤ N) × (N ≤ vec_capacity q.items) };
}

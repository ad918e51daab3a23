// A table of at most N entries, whose memory is had once, so that no later call can fail for want of it.
// Not a BTreeMap, which asks for memory at each new key.
use crate::entry::Entry;
use std::marker::Model;

mod edits;
mod lends;
mod reads;

#[derive(Drop)]
pub struct Table<K: Ord, V, const N: usize> {
    items: Vec<Entry<K, V>>,
}

impl<K: Ord, V, const N: usize> Model for Table<K, V, N> {
    ghost use Rattle.std.specs.Prelude.{◌≡◌, List, ◌≤◌, true, vec_len, vec_capacity};
    ghost use Rattle.tables.specs.declared.entry.Entry.{Entry};
    ghost use Rattle.tables.specs.Entries.{ascending};

    ghost Value = { List (Entry K V) };

    ghost view = { λ t. t.items.items };

    ghost invariant = { λ t. (vec_len t.items ≤ N) × (N ≤ vec_capacity t.items) × (ascending K.cmp t.items.items ≡ true) };
}

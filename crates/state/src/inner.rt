// The recursor's plain inner struct: every table and queue, and the marks.
use paths::Path;
use rules::{Guard, Identity, Owned, Phase, Root, Seen, Share, Stale, WatcherKind, Work};
use std::marker::Model;
use tables::{Queue, Table};

#[derive(Drop)]
pub struct Inner {
    pub roots: Table<Root, (), 8>,
    pub logical: Table<Path, Identity, 64>,
    pub owners: Table<Owned, u32, 128>,
    pub records: Table<Identity, Path, 72>,
    pub guards: Table<Path, Guard, 8>,
    pub guarded: Table<Root, Path, 16>,
    pub seen: Table<Seen, (), 128>,
    pub work: Queue<Work, 256>,
    pub removals: Queue<Path, 128>,
    pub owner_removals: Queue<Share, 128>,
    pub sweep: Queue<Stale, 128>,
    pub phase: Phase,
    pub skipped: Table<Path, (), 128>,
    pub failures: Table<Path, u8, 128>,
    pub retry_candidates: Table<Share, (), 128>,
    pub retry_roots: Table<Root, (), 128>,
    pub tombstones: Table<Path, (), 128>,
    pub latched: bool,
    pub reported: bool,
    pub refresh: bool,
    pub stranded: bool,
    pub epoch: u32,
    pub kind: WatcherKind,
    pub follow: bool,
    pub cwd: Path,
    // Works on their way into the queue; no part of the state.
    pub gathered: Queue<Work, 128>,
    // Watch paths on their way to the backend when it is closed; no part of the state.
    pub closing: Queue<Path, 72>,
}

// Clauses see the state.
impl Model for Inner {
    ghost use Rattle.rules.specs.State.{State};

    ghost Value = { State };

    ghost use Rattle.state.specs.Model.{model};

    ghost view = { model };
}

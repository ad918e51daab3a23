// Having the memory of all tables, once, and opening them afresh.
ghost use Rattle.std.specs.Prelude.{◌≡◌, false, [], IfOk};
ghost use Rattle.rules.specs.declared.watcher_kind.WatcherKind.TheVariants.{Inotify};
ghost use Rattle.rules.specs.Calls.{fresh};

use crate::inner::Inner;
use paths::Path;
use rules::{Phase, WatcherKind};
use std::alloc::{AllocError, Global};
use tables::{Queue, Table};

impl Inner {
    // The only place where memory can be wanting.
    pub fn new(heap: Global) -> Result<Inner, AllocError>
        ensures { IfOk result (λ s. s ≡ fresh Inotify false []) }
    {
        Ok(Inner {
            roots: Table::new(heap)?,
            logical: Table::new(heap)?,
            owners: Table::new(heap)?,
            records: Table::new(heap)?,
            guards: Table::new(heap)?,
            guarded: Table::new(heap)?,
            seen: Table::new(heap)?,
            work: Queue::new(heap)?,
            removals: Queue::new(heap)?,
            owner_removals: Queue::new(heap)?,
            sweep: Queue::new(heap)?,
            phase: Phase::Settled,
            skipped: Table::new(heap)?,
            failures: Table::new(heap)?,
            retry_candidates: Table::new(heap)?,
            retry_roots: Table::new(heap)?,
            tombstones: Table::new(heap)?,
            latched: false,
            reported: false,
            refresh: false,
            stranded: false,
            epoch: 0,
            kind: WatcherKind::Inotify,
            follow: false,
            cwd: Path::root(),
            gathered: Queue::new(heap)?,
            closing: Queue::new(heap)?,
        })
    }

    // Empty tables and marks at their beginning. Each table is cleared, not made anew: its memory is had once.
    pub fn reset(&mut self, kind: WatcherKind, follow: bool, cwd: &Path)
        ensures { self.new ≡ fresh kind follow cwd.now }
    {
        self.roots.clear();
        self.logical.clear();
        self.owners.clear();
        self.records.clear();
        self.guards.clear();
        self.guarded.clear();
        self.seen.clear();
        self.work.clear();
        self.removals.clear();
        self.owner_removals.clear();
        self.sweep.clear();
        self.skipped.clear();
        self.failures.clear();
        self.retry_candidates.clear();
        self.retry_roots.clear();
        self.tombstones.clear();
        self.phase = Phase::Settled;
        self.latched = false;
        self.reported = false;
        self.refresh = false;
        self.stranded = false;
        self.epoch = 0;
        self.kind = kind;
        self.follow = follow;
        self.cwd = *cwd;
    }
}

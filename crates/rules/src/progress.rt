// How far an epoch is, how adding a path ended, and why a run stopped.

#[derive(Clone, Copy, Debug, PartialEq, Eq)]
pub enum Phase {
    Traversing,
    Sweeping,
    Settled,
}

#[derive(Clone, Copy, Debug, PartialEq, Eq)]
pub enum AddResult {
    Added,
    Skipped,
    Invalidated,
    Rebuild,
}

#[derive(Clone, Copy, Debug, PartialEq, Eq)]
pub enum Reason {
    Rebuild,
    Idle,
    Crowded,
    Spent,
}

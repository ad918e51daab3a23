// What a fault is about, and the layer that it comes from.

#[derive(Clone, Copy, Debug, PartialEq, Eq)]
pub enum Layer {
    Watcher,
    Filter,
}

#[derive(Clone, Copy, Debug, PartialEq, Eq)]
pub enum FaultKind {
    PathAdd,
    PathScan,
    PathRemove,
    TooManyWatches,
    TooManyHandles,
    Filter,
}

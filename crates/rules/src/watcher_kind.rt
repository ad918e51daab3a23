// The kinds of backend, by what they watch with.
#[derive(Clone, Copy, Debug, PartialEq, Eq)]
pub enum WatcherKind {
    Inotify,
    ReadDirectoryChangesWatcher,
    PollWatcher,
}

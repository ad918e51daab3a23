// A work that waits.
ghost use Rattle.std.specs.Prelude.{◌≡◌};
ghost use Rattle.rules.specs.State.{guard_work, root_work, candidate_work};
ghost use Rattle.rules.specs.Queueing.{work_path};
ghost use Rattle.rules.specs.Model.{work, work_by};

use crate::root::Root;
use paths::Path;

#[derive(Clone, Copy, Debug, PartialEq, Eq)]
pub enum WorkKind {
    Guard,
    Root,
    Candidate,
    Scan,
    Probe,
}

// Root and path stand beside the kind, since no enum holds a path.
// The path counts for candidates, scans and probes, the retries for candidates and scans, the root for all but probes.
// No model: the fields do not follow from what it stands for, and pinning them would be no plainer.
#[derive(Clone, Copy)]
pub struct Work {
    pub kind: WorkKind,
    pub root: Root,
    pub path: Path,
    pub retries: u8,
}

impl Work {
    fn new(kind: WorkKind, root: &Root, path: &Path, retries: u8) -> Work
        ensures { work result ≡ work_by kind root.now path.now retries }
    {
        Work {
            kind,
            root: *root,
            path: *path,
            retries,
        }
    }

    pub fn guard(root: &Root) -> Work
        ensures { work result ≡ guard_work root.now }
    {
        Work::new(WorkKind::Guard, root, &root.path, 0)
    }

    pub fn root(root: &Root) -> Work
        ensures { work result ≡ root_work root.now }
    {
        Work::new(WorkKind::Root, root, &root.path, 0)
    }

    pub fn candidate(root: &Root, path: &Path, retries: u8) -> Work
        ensures { work result ≡ candidate_work root.now path.now retries }
    {
        Work::new(WorkKind::Candidate, root, path, retries)
    }

    // The path at which it counts; a guard's is the parent of its root.
    pub fn counts_at(&self) -> Path
        ensures { result ≡ work_path (work self.now) }
    {
        match self.kind {
            WorkKind::Guard => self.root.path.parent(),
            WorkKind::Root => self.root.path,
            WorkKind::Candidate | WorkKind::Scan | WorkKind::Probe => self.path,
        }
    }
}

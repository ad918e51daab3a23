// The way down from "/" to a path.
ghost use Rattle.std.specs.Prelude.{◌≡◌, Some};
ghost use Rattle.catalogue.specs.Nodes.{node_at};
ghost use Rattle.catalogue.specs.Ways.{seen as seen_as, below, replaced, passed, way as way_to};
ghost use Rattle.catalogue.specs.Model.{way_of, stopped_by};

use crate::node::Kind;
use crate::tree::Catalogue;
use outside::ScanCause;
use paths::Path;

// Why a way ends before its path: a path that breaks the limits, or a cause. The numbers of causes are the system's:
// 40 for too many links, 20 for what is no directory.
#[derive(Clone, Copy)]
pub enum Stop {
    Lost,
    Cause(ScanCause),
}

impl Stop {
    // The cause, with so many replacements left.
    pub(crate) fn cause(self, left: u8) -> ScanCause
        ensures { result ≡ stopped_by self left }
    {
        match self {
            Stop::Lost if left == 0 => ScanCause::Number(40),
            Stop::Lost => ScanCause::NotFound,
            Stop::Cause(cause) => cause,
        }
    }
}

// A way comes to the kind of its path's node, or to none where a link replaces the path.
// No result holds a path: a link's target, or the path that replaces this one, goes into the place that the caller lends.
impl Catalogue {
    fn seen(&self, path: &Path, place: &mut Path) -> Result<Option<Kind>, Stop>
        ensures { way_of result place.new ≡ seen_as (node_at self.now path.now) }
    {
        let node = self
            .nodes
            .get(path)
            .ok_or(Stop::Cause(ScanCause::NotFound))?;
        *place = node.target;
        Ok(Some(node.kind))
    }

    // The path's last name below the path in the place, which it then holds.
    fn led(path: &Path, place: &mut Path) -> Result<Option<Kind>, Stop>
        ensures { way_of result place.new ≡ replaced (below path.now (Some place.old)) }
    {
        let name = path.name().ok_or(Stop::Lost)?;
        let base = *place;
        base.join(&name, place).map_err(|_| Stop::Lost)?;
        Ok(None)
    }

    fn way(&self, path: &Path, place: &mut Path) -> Result<Option<Kind>, Stop>
        ensures { way_of result place.new ≡ way_to self.now path.now }
    {
        if path.depth() == 0 {
            return self.seen(path, place);
        }
        match self.way(&path.parent(), place)? {
            Some(Kind::Directory) => self.seen(path, place),
            Some(Kind::File) => Err(Stop::Cause(ScanCause::Number(20))),
            Some(Kind::Link) | None => Catalogue::led(path, place),
        }
    }

    // The way, where a link in last place is passed if `last` says so.
    pub(crate) fn pass(
        &self,
        last: bool,
        path: &Path,
        place: &mut Path,
    ) -> Result<Option<Kind>, Stop>
        ensures { way_of result place.new ≡ passed last (way_to self.now path.now) }
    {
        match self.way(path, place)? {
            Some(Kind::Link) if last => Ok(None),
            reached => Ok(reached),
        }
    }
}

// The sizes of the nodes and their depths: one walk each.
ghost use Rattle.std.specs.Prelude.{◌≡◌, None};
ghost use Rattle.finding.specs.Search.{lowest};
ghost use Rattle.layout.specs.Faults.{end_of};
ghost use Rattle.nodes.specs.Tree.{bad_size, too_deep};

use crate::body::Body;
use crate::walk::{Met, Walk};
use layout::outline::end_of;

/// The deepest that a node lies.
const DEEPEST: usize = 64;

impl Body<'_> {
    /// The lowest node whose size is 0 or reaches past its parent's end; or 0, where node 0 does not span all.
    pub(crate) fn size_fault(&self) -> Option<u32>
        ensures { result ≡ lowest (bad_size (end_of self.now.nodes.now) self.now.len) self.now.len }
    {
        if end_of(self.nodes, 0) != self.len as usize {
            return Some(0);
        }
        Walk::over(*self)
            .find(Met::is_out)
            .map(|met| u32::from(met.node))
    }

    /// The lowest node that has depth 65, where no size is at fault.
    pub(crate) fn depth_fault(&self) -> Option<u32>
        requires { lowest (bad_size (end_of self.now.nodes.now) self.now.len) self.now.len ≡ None }
        ensures { result ≡ lowest (too_deep (end_of self.now.nodes.now)) self.now.len }
    {
        Walk::over(*self)
            .find(|met| met.depth == DEEPEST + 1)
            .map(|met| u32::from(met.node))
    }
}

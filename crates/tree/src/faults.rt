// The faults of the nodes.
ghost use Rattle.std.specs.Prelude.{◌≡◌, if◌then◌else◌, None};
ghost use Rattle.finding.specs.Checks.{found, passes_unless};
ghost use Rattle.layout.specs.Faults.{place_of, first_among, node_causes};
ghost use Rattle.layout.specs.Head.{node_body};
ghost use Rattle.layout.specs.Readers.{file_of};
ghost use Rattle.layout.specs.declared.fault.FileFault.TheVariants.{NodeFields, NodeSize, NodeChildren, NodeDepth};
ghost use Rattle.nodes.specs.Kinds.{between};
ghost use Rattle.nodes.specs.Nodes.{count};

use crate::body::Body;
use crate::children::has_bad_children;
use finding::Finding;
use layout::fault::FileFault;
use layout::reader::Reader;
use nodes::fields::bad_fields;

impl Body<'_> {
    // No node has fields that its kind does not allow.
    fn check_fields(&self) -> Result<(), Finding<FileFault>>
        ensures { result ≡ passes_unless (found NodeFields (place_of NodeFields (file_of self.now.reader))) }
    {
        let names = self.reader.names().count();
        let strings = self.reader.strings().count();
        let mut records = self.nodes.chunks_exact(16);
        let place = records.position(|record| bad_fields(names, strings, record));
        Finding::absent(FileFault::NodeFields, place.map(|i| i as u32))
    }

    // Sizes nest.
    fn check_sizes(&self) -> Result<(), Finding<FileFault>>
        ensures { result ≡ passes_unless (found NodeSize (place_of NodeSize (file_of self.now.reader))) }
    {
        Finding::absent(FileFault::NodeSize, self.size_fault())
    }

    // Each node has the children that its kind asks for, and node 0 is a program.
    fn check_children(&self) -> Result<(), Finding<FileFault>>
        ensures { result ≡ passes_unless (found NodeChildren (place_of NodeChildren (file_of self.now.reader))) }
    {
        let place = (0..self.len).find(|i| has_bad_children(self.nodes, *i));
        Finding::absent(FileFault::NodeChildren, place.map(u32::from))
    }

    // No node lies deeper than 64, where sizes nest.
    fn check_depths(&self) -> Result<(), Finding<FileFault>>
        requires { place_of NodeSize (file_of self.now.reader) ≡ None }
        ensures { result ≡ passes_unless (found NodeDepth (place_of NodeDepth (file_of self.now.reader))) }
    {
        Finding::absent(FileFault::NodeDepth, self.depth_fault())
    }
}

/// Fails with the first fault of the nodes, where there are 1 to 1,024: of the first cause that applies, the lowest node.
pub fn check(reader: &Reader) -> Result<(), Finding<FileFault>>
    ensures { result ≡ passes_unless (if between 1 1024 (count (node_body (file_of reader.now))) then first_among node_causes (file_of reader.now) else None) }
{
    let Some(body) = Body::of(reader) else {
        return Ok(());
    };
    body.check_fields()?;
    body.check_sizes()?;
    body.check_children()?;
    body.check_depths()
}

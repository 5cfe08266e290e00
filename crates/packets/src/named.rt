// What a group of an acknowledgement or of a request holds: one node ID, and entries.
ghost use Rattle.std.specs.Prelude.{◌≡◌};
ghost use Rattle.packets.specs.Named.{named_of, viewed_named};

use crate::ids::NodeId;

#[derive(Clone, Copy)]
pub struct Named<'a> {
    pub node: NodeId,
    pub entries: &'a [u8],
}

impl<'a> Named<'a> {
    // From what follows a group's type and length; the count is known to fit and is not read again.
    pub fn read(content: &'a [u8]) -> Option<Named<'a>>
        ensures { viewed_named result ≡ named_of content.now }
    {
        let (node, rest) = content.split_first_chunk::<22>()?;
        let (_, entries) = rest.split_first_chunk::<2>()?;
        Some(Named {
            node: NodeId { bytes: *node },
            entries,
        })
    }
}

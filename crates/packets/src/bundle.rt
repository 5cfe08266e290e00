// The bundle: elements of one node ID and peer group ID.
ghost use Rattle.std.specs.Prelude.{◌≡◌, [], ◌∷◌};
ghost use Rattle.kinds.specs.BigEndian.{write16, write32};
ghost use Rattle.packets.specs.Bundles.{bundle_of, element_of, viewed_bundle, viewed_element};

use crate::ids::{NodeId, PeerGroupId};
use crate::layout::head;

#[derive(Clone, Copy)]
pub struct Bundle<'a> {
    pub node: NodeId,
    pub group: PeerGroupId,
    pub groups: &'a [u8],
}

#[derive(Clone, Copy)]
pub struct Element<'a> {
    pub element_type: u16,
    pub number: u32,
    pub instance: [u8; 8],
    pub body: &'a [u8],
}

impl<'a> Bundle<'a> {
    // From what follows the header; `None` where it is cut.
    pub fn read(part: &'a [u8]) -> Option<Bundle<'a>>
        ensures { viewed_bundle result ≡ bundle_of part.now }
    {
        let (node, rest) = part.split_first_chunk::<22>()?;
        let (group, groups) = rest.split_first_chunk::<14>()?;
        Some(Bundle {
            node: NodeId { bytes: *node },
            group: PeerGroupId { bytes: *group },
            groups,
        })
    }
}

impl<'a> Element<'a> {
    // From what follows a group's type and length; `None` where that is less than the fixed part.
    pub fn read(content: &'a [u8]) -> Option<Element<'a>>
        ensures { viewed_element result ≡ element_of content.now }
    {
        // Stays taken apart here, in `Description::split` and in `Summary::read`: each names the eight bytes and has an edit of its own.
        let ([k0, k1, _, _, n0, n1, n2, n3], rest) = content.split_first_chunk::<8>()?;
        let (instance, body) = rest.split_first_chunk::<8>()?;
        Some(Element {
            element_type: u16::from_be_bytes([*k0, *k1]),
            number: u32::from_be_bytes([*n0, *n1, *n2, *n3]),
            instance: *instance,
            body,
        })
    }
}

// What an element and a description begin with: type, two reserved bytes, number.
pub fn element_head(element_type: u16, number: u32) -> [u8; 8]
    ensures { result ≡ write16 element_type (0 ∷ 0 ∷ write32 number []) }
{
    head(element_type, number)
}

// A bundle: whole elements of one node ID and one peer group ID.
ghost use Rattle.std.specs.Prelude.{◌≡◌, ◌+◌, [], ◌∷◌, nat_le};
ghost use Rattle.kinds.specs.BigEndian.{write16, write32};
ghost use Rattle.compose.specs.Composed.{bundle_content, composed, composed_length, element_long, needed, short};
ghost use Rattle.compose.specs.Framed.{element_group};

use crate::frame::{WriteGroup, write_packet, write_pieces};
use kinds::kind::Kind;
use kinds::recency::instance_at;
use packets::bundle::element_head;
use packets::ids::{NodeId, PeerGroupId};
use packets::layout::PacketType;
use places::store::BodyStore;
use tables::element::Element;
use writer::states::{LONGEST, Open};

// A place that holds no element is passed over. Nothing is written for bodies that are too long or a short buffer.
pub fn write_bundle<K: Kind>(
    buffer: &mut [u8],
    places: &[Option<Element>],
    bodies: &BodyStore,
    elements: &[K],
    node: NodeId,
    group: PeerGroupId,
    chosen: &[usize],
) -> Option<usize>
    ensures written { result ≡ composed_length (short bodies.now chosen.now buffer.old) (bundle_content K.model places.now bodies.now elements.now node group chosen.now) }
    ensures buffer { buffer.new ≡ composed (short bodies.now chosen.now buffer.old) (bundle_content K.model places.now bodies.now elements.now node group chosen.now) buffer.old }
{
    if !is_short(bodies, chosen) || buffer.len() < LONGEST {
        return None;
    }
    Some(write_packet(
        buffer,
        PacketType::Bundle,
        &node.bytes,
        &group.bytes,
        &ElementGroups { bodies, elements },
        places,
        chosen,
    ))
}

// Whether a bundle of these places passes no packet's length.
// Stays a loop that stops: a fold looks at every place, and takes twelve times as long on a hundred that are too long.
fn is_short(bodies: &BodyStore, chosen: &[usize]) -> bool
    ensures { result ≡ nat_le (44 + needed (element_long bodies.now) chosen.now) 2048 }
{
    let mut len = 44;
    for place in chosen {
        len += 20 + bodies.body(*place).len();
        if len > LONGEST {
            return false;
        }
    }
    true
}

// What an element's group is made of besides the element.
#[derive(Clone, Copy)]
struct ElementGroups<'a, K> {
    bodies: &'a BodyStore,
    elements: &'a [K],
}

impl<'a, K: Kind> WriteGroup for ElementGroups<'a, K> {
    type Record = Element;

    ghost bytes = { λ s. element_group K.model s.elements.now s.bodies.now };

    ghost most = { λ s. element_long s.bodies.now };

    fn write_group(&self, draft: Open, buffer: &mut [u8], place: usize, element: Element) -> Open {
        let instance = instance_at(self.elements, place).write();
        write_pieces(
            draft,
            buffer,
            PacketType::Bundle,
            &head(&element),
            &instance,
            self.bodies.body(place),
        )
    }
}

// A step of its own, so that an edit of it meets its clause (CONTRIBUTING.md, Contracts).
fn head(element: &Element) -> [u8; 8]
    ensures { result ≡ write16 element.now.element_type (0 ∷ 0 ∷ write32 element.now.name.number []) }
{
    element_head(element.element_type, element.name.number)
}

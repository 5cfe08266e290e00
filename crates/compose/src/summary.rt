// A summary: a group for each element that is told, with the one description.
ghost use Rattle.std.specs.Prelude.{◌≡◌, ◌+◌, ◌≤◌, [], ◌∷◌, ◌++◌, length};
ghost use Rattle.kinds.specs.BigEndian.{write16, write32};
ghost use Rattle.packets.specs.declared.layout.PacketType.TheVariants.{Summary};
ghost use Rattle.packets.specs.Encodings.{framed};
ghost use Rattle.writer.specs.Writers.{Appended, HasRoom, pasted};
ghost use Rattle.compose.specs.Composed.{composed, composed_length, few, summary_content};
ghost use Rattle.compose.specs.Framed.{described_group, description_group};

use crate::frame::{WriteGroup, add_entry, are_few, open_group, write_packet};
use kinds::kind::Kind;
use kinds::recency::instance_at;
use packets::bundle::element_head;
use packets::layout::PacketType;
use packets::summary::SummaryHead;
use tables::element::Element;
use writer::states::Open;

// A place that holds no element is passed over. Nothing is written for more than 32 places or a short buffer.
pub fn write_summary<K: Kind>(
    buffer: &mut [u8],
    head: SummaryHead,
    places: &[Option<Element>],
    elements: &[K],
    told: &[usize],
) -> Option<usize>
    ensures written { result ≡ composed_length (few told.now buffer.old) (summary_content K.model head.flags head.ds_number places.now elements.now told.now) }
    ensures buffer { buffer.new ≡ composed (few told.now buffer.old) (summary_content K.model head.flags head.ds_number places.now elements.now told.now) buffer.old }
{
    if !are_few(told, buffer) {
        return None;
    }
    Some(write_packet(
        buffer,
        PacketType::Summary,
        &head.bytes(),
        &[],
        &DescriptionGroups { elements },
        places,
        told,
    ))
}

// What an element's description is made of besides the element.
#[derive(Clone, Copy)]
struct DescriptionGroups<'a, K> {
    elements: &'a [K],
}

impl<'a, K: Kind> WriteGroup for DescriptionGroups<'a, K> {
    type Record = Element;

    ghost bytes = { λ s. description_group K.model s.elements.now };

    ghost most = { λ _ _. 60 };

    fn write_group(&self, draft: Open, buffer: &mut [u8], place: usize, element: Element) -> Open {
        let instance = instance_at(self.elements, place).write();
        write_description(draft, buffer, element, instance)
    }
}

fn write_description(draft: Open, buffer: &mut [u8], element: Element, instance: [u8; 8]) -> Open
    requires { HasRoom draft.len 60 buffer.old }
    ensures written { Appended draft.len (described_group element instance) buffer.old result.len buffer.new }
    ensures short { result.len ≤ draft.len + 60 }
{
    write_group(
        draft,
        buffer,
        &element.name.node.bytes,
        &element.group.bytes,
        &head(&element),
        &instance,
    )
}

// A step of its own, as that of a bundle.
fn head(element: &Element) -> [u8; 8]
    ensures { result ≡ write16 element.now.element_type (0 ∷ 0 ∷ write32 element.now.name.number []) }
{
    element_head(element.element_type, element.name.number)
}

// A group of one entry, which comes in two pieces.
fn write_group(
    draft: Open,
    buffer: &mut [u8],
    node: &[u8],
    group: &[u8],
    numbers: &[u8],
    instance: &[u8],
) -> Open
    requires { HasRoom draft.len (8 + (length node.now + (length group.now + (length numbers.now + length instance.now)))) buffer.old }
    ensures written { Appended draft.len (framed Summary (node.now ++ (group.now ++ (0 ∷ 0 ∷ 0 ∷ 1 ∷ (numbers.now ++ instance.now))))) buffer.old result.len buffer.new }
    ensures long { result.len ≡ draft.len + (8 + (length node.now + (length group.now + (length numbers.now + length instance.now)))) }
{
    let open = open_group(
        draft,
        buffer,
        PacketType::Summary,
        node,
        group,
        &[0, 0, 0, 1],
    );
    add_entry(open, buffer, numbers, instance).close(buffer)
}

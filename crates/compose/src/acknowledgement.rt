// An acknowledgement: one group, since all elements of a bundle have its node ID.
ghost use Rattle.std.specs.Prelude.{◌≡◌, ◌+◌, ◌*◌, ◌≤◌, map, length};
ghost use Rattle.packets.specs.Encodings.{encode, entry_bytes, joined};
ghost use Rattle.writer.specs.Writers.{Appended, HasRoom, pasted};
ghost use Rattle.compose.specs.Composed.{acknowledgement_content, composed, composed_length, few_entries};
ghost use Rattle.compose.specs.Framed.{acknowledgement_group};

use crate::frame::{add_entry, begin, open_group};
use packets::acknowledgement::Acknowledged;
use packets::ids::NodeId;
use packets::layout::PacketType;
use writer::states::{GroupOpen, LONGEST, Open};

// No bundle has more elements.
const MOST_ENTRIES: usize = 100;

// Nothing is written for more than 100 entries or a short buffer.
pub fn write_acknowledgement(
    buffer: &mut [u8],
    node: NodeId,
    entries: &[Acknowledged],
) -> Option<usize>
    ensures written { result ≡ composed_length (few_entries entries.now buffer.old) (acknowledgement_content node entries.now) }
    ensures buffer { buffer.new ≡ composed (few_entries entries.now buffer.old) (acknowledgement_content node entries.now) buffer.old }
{
    // Stays beside `are_few`: entries have a limit and a definition of their own (`few_entries`), and so has a bundle (`short`).
    if entries.len() > MOST_ENTRIES || buffer.len() < LONGEST {
        return None;
    }
    // Stays apart from `write_packet`: its one group is of no place of a table, and a table made for it is no plainer.
    let draft = begin(buffer, PacketType::Acknowledgement, &[], &[]);
    let draft = write_group(draft, buffer, node, entries);
    Some(usize::from(draft.finish(buffer).len))
}

fn write_group(draft: Open, buffer: &mut [u8], node: NodeId, entries: &[Acknowledged]) -> Open
    requires few { length entries.now ≤ 100 }
    requires room { HasRoom draft.len (28 + length entries.now * 12) buffer.old }
    ensures { Appended draft.len (acknowledgement_group node entries.now) buffer.old result.len buffer.new }
{
    let count = (entries.len() as u16).to_be_bytes();
    let group = open_group(
        draft,
        buffer,
        PacketType::Acknowledgement,
        &node.bytes,
        &count,
        &[],
    );
    write_entries(group, buffer, entries).close(buffer)
}

// Stays apart from `write_groups`: an entry goes into an open group, another of the writer's fixed states, and none is passed over.
fn write_entries(mut group: GroupOpen, buffer: &mut [u8], entries: &[Acknowledged]) -> GroupOpen
    requires { HasRoom group.len (length entries.now * 12) buffer.old }
    ensures start { result.start ≡ group.start }
    ensures written { Appended group.len (joined (map entry_bytes entries.now)) buffer.old result.len buffer.new }
{
    for entry in entries {
        group = write_entry(group, buffer, *entry);
    }
    group
}

fn write_entry(group: GroupOpen, buffer: &mut [u8], entry: Acknowledged) -> GroupOpen
    requires { HasRoom group.len 12 buffer.old }
    ensures start { result.start ≡ group.start }
    ensures written { Appended group.len (entry_bytes entry) buffer.old result.len buffer.new }
    ensures long { result.len ≡ group.len + 12 }
{
    let Acknowledged { number, instance } = entry;
    add_entry(group, buffer, &number.to_be_bytes(), &instance)
}

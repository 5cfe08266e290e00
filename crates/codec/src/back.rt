// Writing back a packet that was read: its groups and versions as they were, its reserved bytes zero.
ghost use Rattle.std.specs.Prelude.{◌≡◌, ◌+◌, ◌≤◌, min, ◌++◌, length, IfOk, IfErr, None, Ok, OnOk};
ghost use Rattle.packets.specs.Cleared.{cleared};
ghost use Rattle.packets.specs.Contents.{decode, raw, viewed_packet};
ghost use Rattle.packets.specs.Encodings.{description_bytes, encode, framed};
ghost use Rattle.packets.specs.Groups.{content_fault};
ghost use Rattle.packets.specs.Layouts.{group_fixed_of};
ghost use Rattle.writer.specs.Writers.{HasRoom, begun, begun_bytes, pasted};
ghost use Rattle.codec.specs.declared.back.NotWritten.TheVariants as NotWritten;
ghost use Rattle.codec.specs.Backs.{Back, Reason, back_answer, back_bytes, cleared_entries, first_part, group_again, groups_again, part_type, second_part, view_of};
ghost use Rattle.codec.specs.Faithful.{Faithful};
ghost use Rattle.codec.specs.Reports.{Reported};

use packets::bundle::element_head;
use packets::entry::Entries;
use packets::group::Groups;
use packets::header::HeaderFault;
use packets::layout::PacketType;
use packets::packet;
use packets::packet::{Content, Fault, Packet};
use packets::summary::Description;
use writer::states::{Finished, GroupOpen, Open};

#[derive(Clone, Copy)]
pub enum NotWritten {
    // The bytes are no packet.
    Fault(Fault),
    // The buffer is shorter than the packet.
    Room,
}

impl From<Fault> for NotWritten {
    ghost from_gives = { λ fault r. r ≡ NotWritten.Fault fault };

    fn from(fault: Fault) -> NotWritten {
        NotWritten::Fault(fault)
    }
}

pub fn write_back(bytes: &[u8], buffer: &mut [u8]) -> Result<usize, NotWritten>
    ensures answer { result ≡ back_answer (decode bytes.now) (length bytes.now) (length buffer.old) }
    ensures buffer { buffer.new ≡ back_bytes (decode bytes.now) (length bytes.now) buffer.old }
    ensures cleared { OnOk result (buffer.new ≡ pasted 0 (cleared bytes.now) buffer.old) }
    ensures faithful { OnOk result (Faithful) }
    ensures reason { IfErr result (Reason bytes.now (length buffer.old)) }
{
    let packet = read(bytes)?;
    if buffer.len() < bytes.len() {
        return Err(NotWritten::Room);
    }
    Ok(write(&packet, buffer))
}

// Stays beside `packet::read`: tried without, and `write_back` needs a proof file, which its edits would meet (CONTRIBUTING.md,
// Contracts).
fn read(bytes: &[u8]) -> Result<Packet<'_>, Fault>
    ensures content { viewed_packet result ≡ decode bytes.now }
    ensures back { IfOk result (λ p. Back bytes.now (view_of p)) }
    ensures reported { IfErr result (Reported bytes.now) }
{
    packet::read(bytes)
}

// No step is declined where the buffer has room for the packet.
fn write(packet: &Packet<'_>, buffer: &mut [u8]) -> usize
    requires { length (encode (view_of packet.now)) ≤ min (length buffer.old) 2048 }
    ensures length { result ≡ length (encode (view_of packet.now)) }
    ensures buffer { buffer.new ≡ pasted 0 (encode (view_of packet.now)) buffer.old }
    ensures faithful { Faithful }
{
    let draft = begin(packet, buffer).unwrap();
    let draft = write_groups(
        draft,
        buffer,
        packet.content.packet_type(),
        packet.content.groups(),
    );
    let Finished { len } = draft.finish(buffer);
    usize::from(len)
}

fn begin(packet: &Packet<'_>, buffer: &mut [u8]) -> Result<Open, HeaderFault>
    ensures state { result ≡ begun (length buffer.old) (first_part (raw packet.now.content)) (second_part (raw packet.now.content)) }
    ensures bytes { buffer.new ≡ begun_bytes buffer.old (part_type packet.now) packet.now.newest packet.now.oldest (first_part (raw packet.now.content)) (second_part (raw packet.now.content)) }
{
    let of = packet.content.packet_type();
    let newest = packet.newest;
    let oldest = packet.oldest;
    match packet.content {
        Content::Bundle(bundle) => Open::begin(
            buffer,
            of,
            newest,
            oldest,
            &bundle.node.bytes,
            &bundle.group.bytes,
        ),
        Content::Summary(summary) => Open::begin(
            buffer,
            of,
            newest,
            oldest,
            &summary.head.bytes(),
            &[],
        ),
        Content::Acknowledgement(_) | Content::Request(_) => Open::begin(
            buffer,
            of,
            newest,
            oldest,
            &[],
            &[],
        ),
    }
}

// The groups up to one that breaks its layout.
// Stays: draft and buffer are two parameters, since the writer's steps are lent the buffer one by one.
fn write_groups(draft: Open, buffer: &mut [u8], of: PacketType, groups: &[u8]) -> Open
    requires { HasRoom draft.len (length (groups_again (length groups.now) of groups.now)) buffer.old }
    ensures state { result ≡ record { len = draft.len + length (groups_again (length groups.now) of groups.now) } }
    ensures bytes { buffer.new ≡ pasted draft.len (groups_again (length groups.now) of groups.now) buffer.old }
{
    let mut draft = draft;
    for content in Groups::new(of, groups) {
        draft = write_group(draft, buffer, of, content);
    }
    draft
}

fn write_group(draft: Open, buffer: &mut [u8], of: PacketType, content: &[u8]) -> Open
    requires sound { content_fault of content.now ≡ None }
    requires least { group_fixed_of of ≤ 4 + length content.now }
    requires room { HasRoom draft.len (length (group_again of content.now)) buffer.old }
    ensures state { result ≡ record { len = draft.len + length (group_again of content.now) } }
    ensures bytes { buffer.new ≡ pasted draft.len (group_again of content.now) buffer.old }
{
    match of {
        PacketType::Bundle => {
            let (first, rest) = content.split_at(2);
            let (_, third) = rest.split_at(2);
            write_pieces(draft, buffer, of, first, &[0, 0], third, &[])
        }
        PacketType::Summary => {
            let (ids, rest) = content.split_at(36);
            let (_, rest) = rest.split_at(2);
            let (count, entries) = rest.split_at(2);
            write_pieces(draft, buffer, of, ids, &[0, 0], count, entries)
        }
        PacketType::Acknowledgement | PacketType::Request => write_pieces(
            draft,
            buffer,
            of,
            content,
            &[],
            &[],
            &[],
        ),
    }
}

// A group of three pieces, with descriptions behind them.
// Stays beside the like steps of compose: made once they would be public functions of writer with a premise, and a public function has
// none (CONTRIBUTING.md, Contracts). The pieces are parameters as the writer's step takes them.
fn write_pieces(
    draft: Open,
    buffer: &mut [u8],
    of: PacketType,
    first: &[u8],
    second: &[u8],
    third: &[u8],
    entries: &[u8],
) -> Open
    requires room { HasRoom draft.len (4 + (length first.now + (length second.now + (length third.now + length entries.now)))) buffer.old }
    ensures state { result ≡ record { len = draft.len + length (framed of ((first.now ++ (second.now ++ third.now)) ++ cleared_entries (length entries.now) entries.now)) } }
    ensures bytes { buffer.new ≡ pasted draft.len (framed of ((first.now ++ (second.now ++ third.now)) ++ cleared_entries (length entries.now) entries.now)) buffer.old }
{
    let group = draft.group(buffer, of, first, second, third).unwrap();
    write_descriptions(group, buffer, entries).close(buffer)
}

fn write_descriptions(group: GroupOpen, buffer: &mut [u8], entries: &[u8]) -> GroupOpen
    requires room { HasRoom group.len (length entries.now) buffer.old }
    ensures state { result ≡ record { start = group.start; len = group.len + length (cleared_entries (length entries.now) entries.now) } }
    ensures bytes { buffer.new ≡ pasted group.len (cleared_entries (length entries.now) entries.now) buffer.old }
{
    let mut group = group;
    for description in Entries::<Description>::new(entries) {
        group = write_description(group, buffer, description);
    }
    group
}

fn write_description(group: GroupOpen, buffer: &mut [u8], description: Description) -> GroupOpen
    requires { HasRoom group.len 16 buffer.old }
    ensures state { result ≡ record { start = group.start; len = group.len + 16 } }
    ensures bytes { buffer.new ≡ pasted group.len (description_bytes description) buffer.old }
{
    let Description {
        element_type,
        number,
        instance,
    } = description;
    group
        .add(buffer, &element_head(element_type, number), &instance)
        .unwrap()
}

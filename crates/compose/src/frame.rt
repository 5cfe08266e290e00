// What the four packets share: a packet of a group for each place of a table that holds a record, and steps of writing that
// are not declined, since there is room for them.
// Stays: draft and buffer go to each step, as the writer lends the buffer (docs/DECISIONS.md, Language forms); the pieces first,
// second and third go as its steps take them, slices of different lifetimes.
ghost use Rattle.std.specs.Prelude.{◌≡◌, ℕ, ◌+◌, ◌≤◌, true, List, ◌++◌, length};
ghost use Rattle.packets.specs.Encodings.{framed, headed};
ghost use Rattle.writer.specs.Writers.{Appended, HasRoom, begin_bytes, group_bytes, pasted};
ghost use Rattle.compose.specs.Composed.{few, needed};
ghost use Rattle.compose.specs.Framed.{groups_bytes};

use exchange::select::MOST;
use packets::layout::PacketType;
use writer::states::{GroupOpen, LONGEST, Open};

// Newest and oldest version of what we write.
const VERSION: u8 = 1;

// A summary or a request of these places fits, into a buffer for the longest packet.
pub(crate) fn are_few(chosen: &[usize], buffer: &[u8]) -> bool
    ensures fits { result ≡ few chosen.now buffer.now }
    ensures places { result ≡ true → length chosen.now ≤ 32 }
    ensures room { result ≡ true → 2048 ≤ length buffer.now }
{
    chosen.len() <= MOST && buffer.len() >= LONGEST
}

// How the record at a place is written: as one group, which takes at most so many bytes.
pub(crate) trait WriteGroup {
    type Record: Copy;

    ghost bytes: { Self → ℕ → Self.Record → List ℕ };

    ghost most: { Self → ℕ → ℕ };

    fn write_group(&self, draft: Open, buffer: &mut [u8], place: usize, held: Self::Record) -> Open
        requires { HasRoom draft.len (most self.now place) buffer.old }
        ensures written { Appended draft.len (bytes self.now place held) buffer.old result.len buffer.new }
        ensures short { result.len ≤ draft.len + most self.now place };
}

// A whole packet. A place that holds nothing is passed over.
pub(crate) fn write_packet<W: WriteGroup>(
    buffer: &mut [u8],
    of: PacketType,
    first: &[u8],
    second: &[u8],
    groups: &W,
    table: &[Option<W::Record>],
    chosen: &[usize],
) -> usize
    requires { HasRoom (8 + (length first.now + length second.now)) (needed (W.most groups.now) chosen.now) buffer.old }
    ensures { Appended 0 (headed of 1 1 ((first.now ++ second.now) ++ groups_bytes (W.bytes groups.now) table.now chosen.now)) buffer.old result buffer.new }
{
    let draft = begin(buffer, of, first, second);
    let draft = write_groups(draft, buffer, groups, table, chosen);
    usize::from(draft.finish(buffer).len)
}

fn write_groups<W: WriteGroup>(
    mut draft: Open,
    buffer: &mut [u8],
    groups: &W,
    table: &[Option<W::Record>],
    chosen: &[usize],
) -> Open
    requires { HasRoom draft.len (needed (W.most groups.now) chosen.now) buffer.old }
    ensures { Appended draft.len (groups_bytes (W.bytes groups.now) table.now chosen.now) buffer.old result.len buffer.new }
{
    for place in chosen {
        let Some(held) = table.get(*place).copied().flatten() else {
            continue;
        };
        draft = groups.write_group(draft, buffer, *place, held);
    }
    draft
}

// A packet of ours, up to its groups.
pub(crate) fn begin(buffer: &mut [u8], of: PacketType, first: &[u8], second: &[u8]) -> Open
    requires { HasRoom 0 (8 + (length first.now + length second.now)) buffer.old }
    ensures state { result.len ≡ 8 + (length first.now + length second.now) }
    ensures bytes { buffer.new ≡ pasted 0 (begin_bytes of 1 1 first.now second.now) buffer.old }
{
    Open::begin(buffer, of, VERSION, VERSION, first, second).unwrap()
}

// A group, up to its entries.
pub(crate) fn open_group(
    draft: Open,
    buffer: &mut [u8],
    of: PacketType,
    first: &[u8],
    second: &[u8],
    third: &[u8],
) -> GroupOpen
    requires { HasRoom draft.len (4 + (length first.now + (length second.now + length third.now))) buffer.old }
    ensures state { result ≡ record { start = draft.len; len = draft.len + (4 + (length first.now + (length second.now + length third.now))) } }
    ensures bytes { buffer.new ≡ pasted draft.len (group_bytes of first.now second.now third.now) buffer.old }
{
    draft.group(buffer, of, first, second, third).unwrap()
}

// A group of three pieces.
pub(crate) fn write_pieces(
    draft: Open,
    buffer: &mut [u8],
    of: PacketType,
    first: &[u8],
    second: &[u8],
    third: &[u8],
) -> Open
    requires { HasRoom draft.len (4 + (length first.now + (length second.now + length third.now))) buffer.old }
    ensures written { Appended draft.len (framed of (first.now ++ (second.now ++ third.now))) buffer.old result.len buffer.new }
    ensures long { result.len ≡ draft.len + (4 + (length first.now + (length second.now + length third.now))) }
{
    open_group(draft, buffer, of, first, second, third).close(buffer)
}

// An entry of two pieces.
pub(crate) fn add_entry(
    group: GroupOpen,
    buffer: &mut [u8],
    first: &[u8],
    second: &[u8],
) -> GroupOpen
    requires { HasRoom group.len (length first.now + length second.now) buffer.old }
    ensures start { result.start ≡ group.start }
    ensures written { Appended group.len (first.now ++ second.now) buffer.old result.len buffer.new }
{
    group.add(buffer, first, second).unwrap()
}

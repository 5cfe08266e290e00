// The entries of all groups of a packet, one after the other.
ghost use Rattle.std.specs.Prelude.{◌≡◌, []};
ghost use Rattle.std.specs.Iterator.{YieldsFirst, item_count};
ghost use Rattle.packets.specs.Entries.{entries_left};
ghost use Rattle.packets.specs.Groups.{groups_left};
ghost use Rattle.arrivals.specs.Walks.{ahead, in_group, in_groups, under};

use packets::entry::{Entries, Entry};
use packets::group::Groups;
use packets::ids::NodeId;
use packets::layout::PacketType;

// What a group begins with: type, length and node ID.
const UP_TO_NODE: usize = 26;

// The entries left of the present group, and the groups behind it.
#[derive(Drop)]
pub(crate) struct Walk<'a, E> {
    node: NodeId,
    entries: Entries<'a, E>,
    groups: Groups<'a>,
    // How many bytes stand between the node ID of a group and its entries.
    skip: usize,
}

impl<'a, E: Entry> Walk<'a, E> {
    // Before the first group. Stays: the packet's type comes beside the entry's, as an entry does not know in which packet it stands.
    pub(crate) fn start(of: PacketType, groups: &'a [u8]) -> Walk<'a, E>
        ensures { ahead E.at E.size result ≡ in_groups E.at E.size of groups.now }
    {
        Walk {
            node: NodeId { bytes: [0; 22] },
            entries: Entries::new(&[]),
            groups: Groups::new(of, groups),
            skip: of.group_fixed().saturating_sub(UP_TO_NODE),
        }
    }

    // Into a group, when the one before it is done.
    // Stays: of a group it needs the node ID and the entries alone; by `Named` and `Described` it is a function for each type.
    fn open(&mut self, content: &'a [u8])
        requires { entries_left E.at E.size self.old.entries ≡ [] }
        ensures entries { under E.at E.size self.new.node (entries_left E.at E.size self.new.entries) ≡ in_group E.at E.size self.old.skip content.now }
        ensures groups { self.new.groups ≡ self.old.groups }
        ensures skip { self.new.skip ≡ self.old.skip }
    {
        let Some((node, rest)) = content.split_first_chunk::<22>() else {
            return;
        };
        let Some((_, entries)) = rest.split_at_checked(self.skip) else {
            return;
        };
        self.node = NodeId { bytes: *node };
        self.entries = Entries::new(entries);
    }
}

// Each entry comes with the node ID of its group.
impl<'a, E: Entry> Iterator for Walk<'a, E> {
    type Item = (NodeId, E);

    ghost next_gives = { YieldsFirst (ahead E.at E.size) };

    ghost remaining = { item_count (ahead E.at E.size) };

    fn next(&mut self) -> Option<(NodeId, E)> {
        loop {
            if let Some(entry) = self.entries.next() {
                return Some((self.node, entry));
            }
            let content = self.groups.next()?;
            self.open(content);
        }
    }
}

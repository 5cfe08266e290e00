// The groups that fill a packet: one walker for all four packets.
ghost use Rattle.std.specs.Prelude.{◌≡◌, ◌+◌, ◌<◌, ◌≤◌, length};
ghost use Rattle.std.specs.Iterator.{YieldsFirstRef, item_count};
ghost use Rattle.packets.specs.Groups.{content_fault, contents, count_fault, first_fault, groups_left, split_group, unless, viewed};
ghost use Rattle.packets.specs.Layouts.{group_fixed_of};

use crate::layout::PacketType;

// Why a group breaks its layout, in the order in which it is found.
#[derive(Clone, Copy)]
pub enum GroupFault {
    // Too few bytes for a group type and length.
    Cut,
    Type,
    // Shorter than its fixed part.
    Short,
    // Longer than what is left of the packet.
    Long,
    // A body above 256 bytes, or no multiple of 4.
    Body,
    // Not as long as its count says.
    Count,
}

// The first group of some bytes: what follows its type and length, and what follows the group, both parts of the bytes.
#[derive(Clone, Copy)]
pub struct Group<'a> {
    pub content: &'a [u8],
    pub rest: &'a [u8],
}

// A fault, and how many bytes were left where its group begins.
#[derive(Clone, Copy)]
pub struct Misfit {
    pub fault: GroupFault,
    pub left: usize,
}

pub fn split_group<'a>(of: PacketType, bytes: &'a [u8]) -> Result<Group<'a>, GroupFault>
    ensures { viewed result ≡ split_group of bytes.now }
{
    let [type_high, type_low, length_high, length_low, _rest @ ..] = bytes else {
        return Err(GroupFault::Cut);
    };
    if u16::from_be_bytes([*type_high, *type_low]) != of.group_number() {
        return Err(GroupFault::Type);
    }
    let length = usize::from(u16::from_be_bytes([*length_high, *length_low]));
    if length < of.group_fixed() {
        return Err(GroupFault::Short);
    }
    if length > bytes.len() {
        return Err(GroupFault::Long);
    }
    let (group, rest) = bytes.split_at(length);
    let (_, content) = group.split_at(4);
    check_content(of, content)?;
    Ok(Group { content, rest })
}

// What each group holds, up to the first that breaks its layout.
#[derive(Drop)]
pub struct Groups<'a> {
    of: PacketType,
    rest: &'a [u8],
}

impl<'a> Groups<'a> {
    pub fn new(of: PacketType, bytes: &'a [u8]) -> Groups<'a>
        ensures { groups_left result ≡ contents (length bytes.now) of bytes.now }
    {
        Groups { of, rest: bytes }
    }
}

impl<'a> Iterator for Groups<'a> {
    type Item = &'a [u8];

    ghost next_gives = { YieldsFirstRef groups_left };

    ghost remaining = { item_count groups_left };

    fn next(&mut self) -> Option<&'a [u8]> {
        let group = split_group(self.of, self.rest).ok()?;
        self.rest = group.rest;
        Some(group.content)
    }
}

fn check_content(of: PacketType, content: &[u8]) -> Result<(), GroupFault>
    requires { group_fixed_of of ≤ length content.now + 4 }
    ensures { result ≡ unless (content_fault of content.now) tt }
{
    match of {
        PacketType::Bundle => {
            if content.len() > 272 || content.len() % 4 != 0 {
                Err(GroupFault::Body)
            } else {
                Ok(())
            }
        }
        PacketType::Acknowledgement => check_count(content, 22, 12),
        PacketType::Summary => check_count(content, 38, 16),
        PacketType::Request => check_count(content, 22, 4),
    }
}

// The count stands at `at`, and entries of one size follow it.
fn check_count(content: &[u8], at: usize, size: usize) -> Result<(), GroupFault>
    requires { (at + 1 < length content.now) × ((at < 64) × (size < 64)) }
    ensures { result ≡ unless (count_fault content.now at size) tt }
{
    let count = usize::from(u16::from_be_bytes([content[at], content[at + 1]]));
    if content.len() == at + 2 + count * size {
        Ok(())
    } else {
        Err(GroupFault::Count)
    }
}

// Whether all groups keep their layout; the first that breaks it is told.
// Stays a walk of its own: `Groups` ends at a fault without telling it, and a `for` would split that group a second time.
pub fn check_groups(of: PacketType, bytes: &[u8]) -> Result<(), Misfit>
    ensures { result ≡ unless (first_fault (length bytes.now) of bytes.now) tt }
{
    let mut rest = bytes;
    while !rest.is_empty() {
        let group = split_group(of, rest).map_err(|fault| Misfit {
            fault,
            left: rest.len(),
        })?;
        rest = group.rest;
    }
    Ok(())
}

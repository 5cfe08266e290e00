// The summary: flags, DS number, and descriptions of what is held.
ghost use Rattle.std.specs.Prelude.{◌≡◌, ◌==◌, not, bit_and, [], ◌∷◌};
ghost use Rattle.std.proofs.Common.{arith};
ghost use Rattle.kinds.specs.BigEndian.{write16, write32};
ghost use Rattle.packets.specs.Summaries.{described_of, description_at, summary_of, viewed_described, viewed_summary};

use crate::entry::Entry;
use crate::ids::{NodeId, PeerGroupId};
use crate::layout::head;

pub const INITIALIZE: u16 = 0x8000;

pub const MORE: u16 = 0x4000;

pub const MASTER: u16 = 0x2000;

// What a summary says before its groups; one with the head of the last is that one, sent again.
#[derive(Clone, Copy, PartialEq, Eq)]
pub struct SummaryHead {
    pub flags: u16,
    pub ds_number: u32,
}

#[derive(Clone, Copy)]
pub struct Summary<'a> {
    pub head: SummaryHead,
    pub groups: &'a [u8],
}

// What a group of a summary holds.
#[derive(Clone, Copy)]
pub struct Described<'a> {
    pub node: NodeId,
    pub group: PeerGroupId,
    pub entries: &'a [u8],
}

#[derive(Clone, Copy)]
pub struct Description {
    pub element_type: u16,
    pub number: u32,
    pub instance: [u8; 8],
}

impl SummaryHead {
    // Whether it has a flag.
    pub fn has(self, flag: u16) -> bool
        ensures { result ≡ not (bit_and self.flags flag == 0) }
    {
        self.flags & flag != 0
    }

    // Flags, two reserved bytes, DS number.
    pub fn bytes(self) -> [u8; 8]
        ensures { result ≡ write16 self.flags (0 ∷ 0 ∷ write32 self.ds_number []) }
    {
        head(self.flags, self.ds_number)
    }
}

impl<'a> Summary<'a> {
    // From what follows the header; `None` where it is cut.
    pub fn read(part: &'a [u8]) -> Option<Summary<'a>>
        ensures { viewed_summary result ≡ summary_of part.now }
    {
        let ([f0, f1, _, _, d0, d1, d2, d3], groups) = part.split_first_chunk::<8>()?;
        let flags = u16::from_be_bytes([*f0, *f1]);
        let ds_number = u32::from_be_bytes([*d0, *d1, *d2, *d3]);
        Some(Summary {
            head: SummaryHead { flags, ds_number },
            groups,
        })
    }
}

impl<'a> Described<'a> {
    // From what follows a group's type and length; the count is known to fit and is not read again.
    pub fn read(content: &'a [u8]) -> Option<Described<'a>>
        ensures { viewed_described result ≡ described_of content.now }
    {
        let (node, rest) = content.split_first_chunk::<22>()?;
        let (group, rest) = rest.split_first_chunk::<14>()?;
        let (_, entries) = rest.split_first_chunk::<4>()?;
        Some(Described {
            node: NodeId { bytes: *node },
            group: PeerGroupId { bytes: *group },
            entries,
        })
    }
}

impl Entry for Description {
    ghost size = { 16 };

    ghost at = { description_at };

    ghost some = { Prim.omega arith };

    fn split(entries: &[u8]) -> Option<(Description, &[u8])> {
        let ([k0, k1, _, _, n0, n1, n2, n3], rest) = entries.split_first_chunk::<8>()?;
        let (instance, rest) = rest.split_first_chunk::<8>()?;
        let element_type = u16::from_be_bytes([*k0, *k1]);
        let number = u32::from_be_bytes([*n0, *n1, *n2, *n3]);
        Some((
            Description {
                element_type,
                number,
                instance: *instance,
            },
            rest,
        ))
    }
}

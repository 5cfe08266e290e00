// A whole packet, read and checked.
ghost use Rattle.std.specs.Prelude.{◌≡◌};
ghost use Rattle.packets.specs.declared.packet.Fault.TheVariants.{Header};
ghost use Rattle.packets.specs.Contents.{decode, groups_of, raw_type, part_of, raw, viewed_packet, viewed_part};

use crate::bundle::Bundle;
use crate::group::{GroupFault, check_groups};
use crate::header::{HeaderFault, read_header};
use crate::layout::PacketType;
use crate::summary::Summary;

#[derive(Clone, Copy)]
pub struct Packet<'a> {
    pub newest: u8,
    pub oldest: u8,
    pub content: Content<'a>,
}

// An acknowledgement and a request have nothing but their groups.
#[derive(Clone, Copy)]
pub enum Content<'a> {
    Bundle(Bundle<'a>),
    Acknowledgement(&'a [u8]),
    Summary(Summary<'a>),
    Request(&'a [u8]),
}

// Why bytes are no packet; a group's fault comes with the place where the group begins.
#[derive(Clone, Copy)]
pub enum Fault {
    Header(HeaderFault),
    Group { fault: GroupFault, at: usize },
}

impl From<HeaderFault> for Fault {
    ghost from_gives = { λ fault r. r ≡ Header fault };

    fn from(fault: HeaderFault) -> Fault {
        Fault::Header(fault)
    }
}

impl<'a> Content<'a> {
    // From what follows the header; `None` where it is cut.
    fn read(of: PacketType, part: &'a [u8]) -> Option<Content<'a>>
        ensures { viewed_part result ≡ part_of of part.now }
    {
        match of {
            PacketType::Bundle => Some(Content::Bundle(Bundle::read(part)?)),
            PacketType::Acknowledgement => Some(Content::Acknowledgement(part)),
            PacketType::Summary => Some(Content::Summary(Summary::read(part)?)),
            PacketType::Request => Some(Content::Request(part)),
        }
    }

    pub fn packet_type(&self) -> PacketType
        ensures { result ≡ raw_type (raw self.now) }
    {
        match self {
            Content::Bundle(_) => PacketType::Bundle,
            Content::Acknowledgement(_) => PacketType::Acknowledgement,
            Content::Summary(_) => PacketType::Summary,
            Content::Request(_) => PacketType::Request,
        }
    }

    pub fn groups(&self) -> &'a [u8]
        ensures { result.now ≡ groups_of (raw self.now) }
    {
        match self {
            Content::Bundle(bundle) => bundle.groups,
            Content::Acknowledgement(groups) | Content::Request(groups) => groups,
            Content::Summary(summary) => summary.groups,
        }
    }
}

// A packet is checked whole: what its groups hold may be read again without a test.
pub fn read(bytes: &[u8]) -> Result<Packet<'_>, Fault>
    ensures { viewed_packet result ≡ decode bytes.now }
{
    let header = read_header(bytes)?;
    let (_, part) = bytes.split_first_chunk::<8>().ok_or(HeaderFault::Short)?;
    let content = Content::read(header.packet_type, part).ok_or(HeaderFault::Cut)?;
    check_groups(header.packet_type, content.groups()).map_err(|misfit| Fault::Group {
        fault: misfit.fault,
        at: bytes.len().saturating_sub(misfit.left),
    })?;
    Ok(Packet {
        newest: header.newest,
        oldest: header.oldest,
        content,
    })
}

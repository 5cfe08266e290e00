// The eight bytes with which every packet begins.
ghost use Rattle.std.specs.Prelude.{◌≡◌};
ghost use Rattle.packets.specs.declared.header.HeaderFault.TheVariants as HeaderFault;
ghost use Rattle.packets.specs.Headers.{header_of};

use crate::layout::{PacketType, UnknownType};

#[derive(Clone, Copy)]
pub struct Header {
    pub packet_type: PacketType,
    pub newest: u8,
    pub oldest: u8,
}

// Why the bytes before the groups are no packet's, in the order in which it is found.
#[derive(Clone, Copy)]
pub enum HeaderFault {
    // Fewer than 8 bytes.
    Short,
    // More than 2,048 bytes.
    Long,
    // The length field is not the number of bytes.
    Length,
    Version,
    Type,
    // The part after the header is not all there.
    Cut,
}

impl From<UnknownType> for HeaderFault {
    ghost from_gives = { λ unknown fault. fault ≡ HeaderFault.Type };

    fn from(_unknown: UnknownType) -> HeaderFault {
        HeaderFault::Type
    }
}

// The part after the header is read by the packet's own reader, which finds whether it is cut.
pub fn read_header(packet: &[u8]) -> Result<Header, HeaderFault>
    ensures { result ≡ header_of packet.now }
{
    let [
        type_high,
        type_low,
        length_high,
        length_low,
        version,
        newest,
        oldest,
        _reserved,
        _rest @ ..,
    ] = packet
    else {
        return Err(HeaderFault::Short);
    };
    if packet.len() > 2048 {
        return Err(HeaderFault::Long);
    }
    if usize::from(u16::from_be_bytes([*length_high, *length_low])) != packet.len() {
        return Err(HeaderFault::Length);
    }
    if *version != 1 {
        return Err(HeaderFault::Version);
    }
    let packet_type = PacketType::try_from(u16::from_be_bytes([*type_high, *type_low]))?;
    Ok(Header {
        packet_type,
        newest: *newest,
        oldest: *oldest,
    })
}

// The packet types, with the numbers and sizes of their layouts.
ghost use Rattle.std.specs.Prelude.{◌≡◌, [], ◌∷◌};
ghost use Rattle.kinds.specs.BigEndian.{write16, write32};
ghost use Rattle.std.specs.Option.{ok_or};
ghost use Rattle.packets.specs.Layouts.{group_fixed_of, group_number_of, number_of, type_of, unknown_type};

#[derive(Clone, Copy)]
pub enum PacketType {
    Bundle,
    Acknowledgement,
    Summary,
    Request,
}

// A number that is no packet's type.
#[derive(Clone, Copy, PartialEq, Eq)]
pub struct UnknownType(pub u16);

impl TryFrom<u16> for PacketType {
    type Error = UnknownType;

    ghost try_from_gives = { λ number r. r ≡ ok_or (type_of number) (unknown_type number) };

    fn try_from(number: u16) -> Result<Self, UnknownType> {
        match number {
            2 => Ok(PacketType::Bundle),
            3 => Ok(PacketType::Acknowledgement),
            4 => Ok(PacketType::Summary),
            5 => Ok(PacketType::Request),
            _ => Err(UnknownType(number)),
        }
    }
}

impl From<PacketType> for u16 {
    ghost from_gives = { λ of number. number ≡ number_of of };

    fn from(of: PacketType) -> u16 {
        match of {
            PacketType::Bundle => 2,
            PacketType::Acknowledgement => 3,
            PacketType::Summary => 4,
            PacketType::Request => 5,
        }
    }
}

impl PacketType {
    pub fn group_number(self) -> u16
        ensures { result ≡ group_number_of self }
    {
        match self {
            PacketType::Bundle => 64,
            PacketType::Acknowledgement => 384,
            PacketType::Summary => 512,
            PacketType::Request => 513,
        }
    }

    // The length of a group without its entries, or its body.
    pub fn group_fixed(self) -> usize
        ensures { result ≡ group_fixed_of self }
    {
        match self {
            PacketType::Bundle => 20,
            PacketType::Summary => 44,
            PacketType::Acknowledgement | PacketType::Request => 28,
        }
    }
}

// A number of two bytes, two reserved bytes, and a number of four.
pub(crate) fn head(first: u16, second: u32) -> [u8; 8]
    ensures { result ≡ write16 first (0 ∷ 0 ∷ write32 second []) }
{
    let [a0, a1] = first.to_be_bytes();
    let [b0, b1, b2, b3] = second.to_be_bytes();
    [a0, a1, 0, 0, b0, b1, b2, b3]
}

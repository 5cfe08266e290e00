// Why a call declines.
ghost use Rattle.std.specs.Prelude.{◌≡◌};
ghost use Rattle.calls.specs.Refusals.{refusal_number};

#[derive(Clone, Copy)]
pub enum Refusal {
    RowLength,
    LineNumber,
    LineState,
    NeighbourId,
    BufferLength,
    PacketHeader,
    PacketGroup,
    NotSummary,
    WantPlaces,
    BadElement,
    PlacesFull,
    LastInstance,
    NotHeld,
}

impl From<Refusal> for u8 {
    ghost from_gives = { λ refusal number. number ≡ refusal_number refusal };

    fn from(refusal: Refusal) -> u8 {
        match refusal {
            Refusal::RowLength => 1,
            Refusal::LineNumber => 2,
            Refusal::LineState => 3,
            Refusal::NeighbourId => 4,
            Refusal::BufferLength => 5,
            Refusal::PacketHeader => 6,
            Refusal::PacketGroup => 7,
            Refusal::NotSummary => 8,
            Refusal::WantPlaces => 9,
            Refusal::BadElement => 10,
            Refusal::PlacesFull => 11,
            Refusal::LastInstance => 12,
            Refusal::NotHeld => 13,
        }
    }
}

// A request: a group for each want, with the one number that is wanted.
ghost use Rattle.std.specs.Prelude.{◌≡◌};
ghost use Rattle.compose.specs.Composed.{composed, composed_length, few, request_content};
ghost use Rattle.compose.specs.Framed.{request_group};

use crate::frame::{WriteGroup, are_few, write_packet, write_pieces};
use packets::layout::PacketType;
use tables::want::Want;
use writer::states::Open;

// A place that holds no want is passed over. Nothing is written for more than 32 places or a short buffer.
pub fn write_request(buffer: &mut [u8], wants: &[Option<Want>], chosen: &[usize]) -> Option<usize>
    ensures written { result ≡ composed_length (few chosen.now buffer.old) (request_content wants.now chosen.now) }
    ensures buffer { buffer.new ≡ composed (few chosen.now buffer.old) (request_content wants.now chosen.now) buffer.old }
{
    if !are_few(chosen, buffer) {
        return None;
    }
    Some(write_packet(
        buffer,
        PacketType::Request,
        &[],
        &[],
        &RequestGroups,
        wants,
        chosen,
    ))
}

struct RequestGroups;

impl WriteGroup for RequestGroups {
    type Record = Want;

    ghost bytes = { λ _. request_group };

    ghost most = { λ _ _. 32 };

    fn write_group(&self, draft: Open, buffer: &mut [u8], place: usize, want: Want) -> Open {
        write_pieces(
            draft,
            buffer,
            PacketType::Request,
            &want.name.node.bytes,
            &[0, 1],
            &want.name.number.to_be_bytes(),
        )
    }
}

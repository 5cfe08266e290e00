// What one node keeps besides the two rows of instances that each call is lent.
ghost use Rattle.std.specs.Prelude.{◌≡◌, replicate};
ghost use Rattle.database.specs.Nodes.{OnePlace, idle_line, started};

use lines::line::{Line, OwnSummary, Role, State};
use packets::ids::{NodeId, PeerGroupId};
use places::count::SendCount;
use places::set::PlaceSet;
use places::store::BodyStore;
use tables::element::Element;
use tables::want::Want;

#[derive(Drop)]
pub struct Node {
    pub id: NodeId,
    pub group: PeerGroupId,
    // Stays beside `bodies` and the wants: their instances lie in rows that are lent, and a body's bytes stay when its place is free.
    pub places: [Option<Element>; 64],
    pub bodies: BodyStore,
    pub wants: [Option<Want>; 64],
    pub lines: [Line; 8],
}

impl Node {
    // All places are free and all lines down. What the rows hold does not matter yet.
    pub fn start(id: NodeId, group: PeerGroupId) -> Node
        ensures node { result ≡ started id group }
        ensures one_place { OnePlace result }
    {
        Node {
            id,
            group,
            places: [None; 64],
            bodies: BodyStore::new(),
            wants: [None; 64],
            lines: idle_lines(),
        }
    }
}

fn idle_lines() -> [Line; 8]
    ensures { result ≡ replicate 8 idle_line }
{
    let line = Line {
        state: State::Down,
        neighbour: NodeId { bytes: [0; 22] },
        ds_number: 0,
        role: Role::Master,
        accepted: None,
        summary: OwnSummary::initial(),
        owed: PlaceSet::empty(),
        counts: [SendCount::sent(); 64],
        to_tell: PlaceSet::empty(),
        told: PlaceSet::empty(),
    };
    [line; 8]
}

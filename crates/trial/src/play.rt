// A node on trial, with the two rows of instances that its calls are lent.
use crate::outcome::Outcome;
use crate::script::{Call, OwnElement};
use calls::originate::Origination;
use calls::{down, originate, second, up};
use database::node::Node;
use kinds::kind::Kind;
use packets::ids::{NodeId, PeerGroupId};

#[derive(Drop)]
pub(crate) struct Play<K: Kind> {
    pub node: Node,
    // Stays two arrays: the rows of two tables, lent one by one.
    pub elements: [K; 64],
    wants: [K; 64],
}

impl<K: Kind> Play<K> {
    // What the rows hold at the beginning does not matter.
    pub(crate) fn new(id: NodeId, group: PeerGroupId) -> Play<K> {
        let row = [K::first(0, 1); 64];
        Play {
            node: Node::start(id, group),
            elements: row,
            wants: row,
        }
    }

    pub(crate) fn make(&mut self, call: &Call) -> Outcome {
        let node = &mut self.node;
        let elements = &mut self.elements;
        let wants = &mut self.wants;
        match call {
            Call::Up {
                line,
                neighbour,
                ds_number,
            } => Outcome::from(up::up(node, elements, wants, *line, *neighbour, *ds_number)),
            Call::Down { line } => Outcome::from(down::down(node, elements, wants, *line)),
            Call::Originate(element) => self.originate(element),
            Call::Second => Outcome::from(second::second(node, elements, wants)),
        }
    }

    fn originate(&mut self, element: &OwnElement) -> Outcome {
        Outcome::from(originate::originate(
            &mut self.node,
            &mut self.elements,
            &mut self.wants,
            Origination::from(element),
        ))
    }
}

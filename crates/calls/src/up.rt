// A neighbour comes up on a line.
ghost use Rattle.std.specs.Prelude.{◌≡◌};
ghost use Rattle.database.specs.Nodes.{world};
ghost use Rattle.calls.specs.Calls.{up_answer, up_world};
ghost use Rattle.calls.specs.Laws.{KeepsOnePlace, Untouched};

use crate::guard::{check_line, check_rows, is_in_use};
use crate::refusal::Refusal;
use database::node::Node;
use kinds::kind::Kind;
use packets::ids::NodeId;

// The line negotiates, and an initial summary is due.
pub fn up<K: Kind>(
    node: &mut Node,
    elements: &mut [K],
    wants: &mut [K],
    line: usize,
    neighbour: NodeId,
    ds_number: u32,
) -> Result<(), Refusal>
    ensures answer { result ≡ up_answer (world node.old elements.old wants.old) line neighbour }
    ensures node { node.new ≡ (up_world (world node.old elements.old wants.old) line neighbour ds_number).node }
    ensures elements { elements.new ≡ elements.old }
    ensures wants { wants.new ≡ wants.old }
    ensures refused { Untouched result (world node.old elements.old wants.old) (world node.new elements.new wants.new) }
    ensures one_place { KeepsOnePlace node.old node.new }
{
    check_rows(elements, wants)?;
    check_line(line)?;
    if !node.lines[line].state.is_down() {
        return Err(Refusal::LineState);
    }
    if is_in_use(node, &neighbour) {
        return Err(Refusal::NeighbourId);
    }
    node.negotiate(line, neighbour, ds_number);
    Ok(())
}

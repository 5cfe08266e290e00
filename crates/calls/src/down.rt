// A line goes down.
ghost use Rattle.std.specs.Prelude.{◌≡◌};
ghost use Rattle.database.specs.Nodes.{world};
ghost use Rattle.calls.specs.Calls.{down_answer, down_world};
ghost use Rattle.calls.specs.Laws.{KeepsOnePlace, Untouched};

use crate::guard::{check_line, check_rows};
use crate::refusal::Refusal;
use database::node::Node;
use kinds::kind::Kind;
use lines::line::State;

// As a restart, but to down, and nothing is due.
// Stays with the rows beside the node, as every call: a rule of the project (docs/DECISIONS.md, Language forms fixed from the start).
pub fn down<K: Kind>(
    node: &mut Node,
    elements: &mut [K],
    wants: &mut [K],
    line: usize,
) -> Result<(), Refusal>
    ensures answer { result ≡ down_answer (world node.old elements.old wants.old) line }
    ensures node { node.new ≡ (down_world (world node.old elements.old wants.old) line).node }
    ensures elements { elements.new ≡ elements.old }
    ensures wants { wants.new ≡ wants.old }
    ensures refused { Untouched result (world node.old elements.old wants.old) (world node.new elements.new wants.new) }
    ensures one_place { KeepsOnePlace node.old node.new }
{
    check_rows(elements, wants)?;
    check_line(line)?;
    if node.lines[line].state.is_down() {
        return Err(Refusal::LineState);
    }
    node.clear(line, State::Down);
    Ok(())
}

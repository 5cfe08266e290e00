// Conditions under which calls decline.
ghost use Rattle.std.specs.Prelude.{◌≡◌, [], ◌∷◌, Ok};
ghost use Rattle.calls.specs.declared.refusal.Refusal.TheVariants.{RowLength, LineNumber};
ghost use Rattle.calls.specs.Guards.{bad_rows, id_in_use, line_down, no_such_line};
ghost use Rattle.calls.specs.Refusals.{◌⇒◌, checked};

use crate::refusal::Refusal;
use database::node::Node;
use kinds::kind::Kind;
use lines::marks;
use packets::ids::NodeId;

pub(crate) fn check_rows<K: Kind>(elements: &[K], wants: &[K]) -> Result<(), Refusal>
    ensures { result ≡ checked ((bad_rows elements.now wants.now ⇒ RowLength) ∷ []) (Ok tt) }
{
    if elements.len() != 64 || wants.len() != 64 {
        return Err(Refusal::RowLength);
    }
    Ok(())
}

// Stays before the index: each call that names a line declines by it, in its place among the refusals.
pub(crate) fn check_line(line: usize) -> Result<(), Refusal>
    ensures { result ≡ checked ((no_such_line line ⇒ LineNumber) ∷ []) (Ok tt) }
{
    if line >= 8 {
        return Err(Refusal::LineNumber);
    }
    Ok(())
}

// The ID is ours, or that of a neighbour on a line that is not down.
pub(crate) fn is_in_use(node: &Node, id: &NodeId) -> bool
    ensures { result ≡ id_in_use node.now id.now }
{
    node.id.same(id) || marks::is_neighbour(&node.lines, id)
}

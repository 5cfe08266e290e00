// What a neighbour requests. All or nothing: a name that is not held is looked for before any is called for.
ghost use Rattle.std.specs.Prelude.{◌≡◌, map, slice_index_or, slice_set};
ghost use Rattle.database.specs.Nodes.{with_lines};
ghost use Rattle.exchange.specs.Showings.{called_at, called_for, is_unheld, some_unheld};
ghost use Rattle.packets.specs.Requests.{number_at};
ghost use Rattle.lines.specs.Lines.{no_line};
ghost use Rattle.tables.specs.Searches.{place_of};
ghost use Rattle.arrivals.specs.Readings.{requested_at, requested_in};
ghost use Rattle.arrivals.specs.Walks.{ahead};

use crate::marking;
use crate::walk::Walk;
use database::node::Node;
use packets::ids::Name;
use packets::layout::PacketType;

pub fn names_unheld(node: &Node, groups: &[u8]) -> bool
    ensures { result ≡ some_unheld node.now.places (requested_in groups.now) }
{
    walk_names(groups).any(|(id, number)| is_unheld(node, Name { node: id, number }))
}

// Before the first name.
fn walk_names(groups: &[u8]) -> Walk<'_, u32>
    ensures { map requested_at (ahead number_at 4 result) ≡ requested_in groups.now }
{
    Walk::start(PacketType::Request, groups)
}

fn is_unheld(node: &Node, name: Name) -> bool
    ensures { result ≡ is_unheld node.now.places name }
{
    node.find(&name).is_none()
}

// Each element named is owed to the line, and due at once.
pub fn call_for_all(node: &mut Node, line: usize, groups: &[u8])
    ensures { node.new ≡ with_lines node.old node.old.wants (slice_set node.old.lines line (called_for node.old.places (requested_in groups.now) (slice_index_or node.old.lines line no_line))) }
{
    for (id, number) in walk_names(groups) {
        call_for(node, line, &Name { node: id, number });
    }
}

fn call_for(node: &mut Node, line: usize, name: &Name)
    ensures { node.new ≡ with_lines node.old node.old.wants (slice_set node.old.lines line (called_at (place_of node.old.places name.now) (slice_index_or node.old.lines line no_line))) }
{
    if let Some(place) = node.find(name) {
        marking::owe(&mut node.lines, line, place);
    }
}

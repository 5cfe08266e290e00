// How a neighbour shows what is held.
ghost use Rattle.std.specs.Prelude.{◌≡◌, slice_index_or, slice_set};
ghost use Rattle.database.specs.Nodes.{with_lines};
ghost use Rattle.exchange.specs.Showings.{shown_all};
ghost use Rattle.lines.specs.Lines.{no_line};
ghost use Rattle.arrivals.specs.Readings.{acknowledged_in};

use crate::marking;
use crate::naming::Naming;
use crate::walk::Walk;
use database::node::Node;
use kinds::kind::Kind;
use lines::line::Line;
use packets::acknowledgement::Acknowledged;
use packets::layout::PacketType;
use tables::element::Element;

// Each entry of an acknowledgement shows the instance held of its name, if it ranks the same.
pub fn show_all<K: Kind>(node: &mut Node, elements: &[K], line: usize, groups: &[u8])
    ensures { node.new ≡ with_lines node.old node.old.wants (slice_set node.old.lines line (shown_all K.model node.old.places elements.now (acknowledged_in K.model groups.now) (slice_index_or node.old.lines line no_line))) }
{
    show_each(&mut node.lines, line, &node.places, elements, groups);
}

fn show_each<K: Kind>(
    lines: &mut [Line],
    line: usize,
    places: &[Option<Element>],
    elements: &[K],
    groups: &[u8],
)
    ensures { lines.new ≡ slice_set lines.old line (shown_all K.model places.now elements.now (acknowledged_in K.model groups.now) (slice_index_or lines.old line no_line)) }
{
    for (node, entry) in Walk::<Acknowledged>::start(PacketType::Acknowledgement, groups) {
        let naming = Naming::read(node, entry.number, entry.instance);
        marking::show_named(lines, line, places, elements, &naming);
    }
}

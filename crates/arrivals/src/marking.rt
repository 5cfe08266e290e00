// What becomes of one line; a line past the end of the table has nothing to change.
ghost use Rattle.std.specs.Prelude.{◌≡◌, slice_index_or, slice_set};
ghost use Rattle.lines.specs.Lines.{no_line, owing, shown};
ghost use Rattle.arrivals.specs.Readings.{naming_view};
ghost use Rattle.exchange.specs.Showings.{shown_by, showing};

use crate::naming::Naming;
use kinds::kind::Kind;
use kinds::rank::Rank;
use kinds::recency::instance_at;
use lines::line::Line;
use places::row::change_at;
use tables::element::Element;
use tables::search::find_in;

pub(crate) fn show(lines: &mut [Line], line: usize, place: usize)
    ensures { lines.new ≡ slice_set lines.old line (shown place (slice_index_or lines.old line no_line)) }
{
    change_at(lines, line, |line| line.show(place));
}

pub(crate) fn owe(lines: &mut [Line], line: usize, place: usize)
    ensures { lines.new ≡ slice_set lines.old line (owing place (slice_index_or lines.old line no_line)) }
{
    change_at(lines, line, |line| line.owe(place));
}

// An instance that ranks the same as the one held at the place shows it.
pub(crate) fn show_same<K: Kind>(
    lines: &mut [Line],
    line: usize,
    elements: &[K],
    instance: &K,
    place: usize,
)
    ensures { lines.new ≡ slice_set lines.old line (showing K.model elements.now instance.now place (slice_index_or lines.old line no_line)) }
{
    change_at(lines, line, |line| {
        show_if_same(line, elements, instance, place);
    });
}

fn show_if_same<K: Kind>(line: &mut Line, elements: &[K], instance: &K, place: usize)
    ensures { line.new ≡ showing K.model elements.now instance.now place line.old }
{
    if let Rank::Same = instance.rank(&instance_at(elements, place)) {
        line.show(place);
    }
}

// The instance held of the name is shown by one that ranks the same.
pub(crate) fn show_named<K: Kind>(
    lines: &mut [Line],
    line: usize,
    places: &[Option<Element>],
    elements: &[K],
    naming: &Naming<K>,
)
    ensures { lines.new ≡ slice_set lines.old line (shown_by K.model places.now elements.now (naming_view naming.now) (slice_index_or lines.old line no_line)) }
{
    if let Some(place) = find_in(places, &naming.name) {
        show_same(lines, line, elements, &naming.instance, place);
    }
}

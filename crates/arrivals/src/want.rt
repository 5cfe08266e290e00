// Which descriptions are wanted, and the wants that they open.
ghost use Rattle.std.specs.Prelude.{◌≡◌, not, ◌&&◌, List, [], map, drop, Some, slice_set};
ghost use Rattle.database.specs.Nodes.{with_lines, world};
ghost use Rattle.exchange.specs.Wanting.{described, described_all, free_places, is_want, is_wanted, lacks_places, needed, needs_for, needs_place, new_want, want_named, wanted_by};
ghost use Rattle.lines.specs.Tables.{some_where};
ghost use Rattle.arrivals.specs.Readings.{naming_view};
ghost use Rattle.arrivals.specs.Views.{last_needed, viewed};

use crate::marking;
use crate::naming::Naming;
use database::node::Node;
use kinds::kind::Kind;
use kinds::recency::instance_at;
use lines::marks::RESEND_LIMIT;
use packets::ids::Name;
use places::count::SendCount;
use places::row::put;
use tables::search::free_in;
use tables::want::Want;

fn is_want(want: &Option<Want>, line: usize, name: &Name) -> bool
    ensures { result ≡ is_want line name.now want.now }
{
    want.is_some_and(|open| open.line == line && open.name.same(name))
}

// The line's want of a name.
fn find_named(wants: &[Option<Want>], line: usize, name: &Name) -> Option<usize>
    ensures { result ≡ want_named wants.now line name.now }
{
    wants.iter().position(|want| is_want(want, line, name))
}

// What a line's descriptions are held against.
#[derive(Clone, Copy)]
struct View<'a, K> {
    node: &'a Node,
    elements: &'a [K],
    line: usize,
}

impl<'a, K: Kind> View<'a, K> {
    // The held instance ranks lower, or none is held and this one is unexpired.
    fn is_wanted(&self, naming: &Naming<K>) -> bool
        ensures { result ≡ is_wanted K.model (viewed self.now) (naming_view naming.now) }
    {
        match self.node.find(&naming.name) {
            Some(place) => {
                let held = instance_at(self.elements, place);
                naming.instance.rank(&held).is_higher()
            }
            None => !naming.instance.is_expired(),
        }
    }

    // Wanted, of a name that the line has no want of.
    fn needs_place(&self, naming: &Naming<K>) -> bool
        ensures { result ≡ needs_place K.model self.now.line (viewed self.now) (naming_view naming.now) }
    {
        self.is_wanted(naming) && find_named(&self.node.wants, self.line, &naming.name).is_none()
    }

    fn needs_for(&self, name: &Name, naming: &Naming<K>) -> bool
        ensures { result ≡ needs_for K.model self.now.line (viewed self.now) name.now (naming_view naming.now) }
    {
        self.needs_place(naming) && naming.name.same(name)
    }

    fn is_needed(&self, name: &Name, namings: &[Naming<K>]) -> bool
        ensures { result ≡ some_where (needs_for K.model self.now.line (viewed self.now) name.now) (map naming_view namings.now) }
    {
        namings.iter().any(|naming| self.needs_for(name, naming))
    }

    // Needed, and by none of the later descriptions.
    fn is_last_needed(&self, naming: &Naming<K>, later: &[Naming<K>]) -> bool
        ensures { result ≡ (needs_place K.model self.now.line (viewed self.now) (naming_view naming.now) && not (some_where (needs_for K.model self.now.line (viewed self.now) naming.now.name) (map naming_view later.now))) }
    {
        self.needs_place(naming) && !self.is_needed(&naming.name, later)
    }

    // These descriptions begin with such a one. Stays a match: tried by `is_some_and`, and the search gives up at its limits.
    fn starts_with_last_needed(&self, namings: &[Naming<K>]) -> bool
        ensures { result ≡ last_needed K.model self.now namings.now }
    {
        match namings.split_first() {
            Some((naming, later)) => self.is_last_needed(naming, later),
            None => false,
        }
    }

    fn is_last_needed_at(&self, namings: &[Naming<K>], place: usize) -> bool
        ensures { result ≡ last_needed K.model self.now (drop place namings.now) }
    {
        self.starts_with_last_needed(namings.get(place..).unwrap_or_default())
    }

    // The want places that descriptions need: as many as there are names of the needed ones.
    fn count_needed(&self, namings: &[Naming<K>]) -> usize
        ensures { result ≡ needed K.model self.now.line (viewed self.now) (map naming_view namings.now) }
    {
        (0..namings.len())
            .filter(|place| self.is_last_needed_at(namings, *place))
            .count()
    }
}

fn count_free(wants: &[Option<Want>]) -> usize
    ensures { result ≡ free_places wants.now }
{
    wants.iter().filter(|want| want.is_none()).count()
}

// The descriptions need more want places than are free.
pub(crate) fn is_short<K: Kind>(
    node: &Node,
    elements: &[K],
    line: usize,
    namings: &[Naming<K>],
) -> bool
    ensures { (ws : List K) → result ≡ lacks_places K.model line (world node.now elements.now ws) (map naming_view namings.now) }
{
    let view = View {
        node,
        elements,
        line,
    };
    count_free(&node.wants) < view.count_needed(namings)
}

// A description shows the instance held, or is wanted.
// Stays: node, rows and line are parameters of each call, as at `arrive`.
pub fn describe<K: Kind>(
    node: &mut Node,
    elements: &[K],
    wanted: &mut [K],
    line: usize,
    naming: &Naming<K>,
)
    ensures { world node.new elements.now wanted.new ≡ described K.model line (naming_view naming.now) (world node.old elements.now wanted.old) }
{
    marking::show_named(&mut node.lines, line, &node.places, elements, naming);
    want(node, elements, wanted, line, naming);
}

// A want that the line has is replaced by a higher instance only.
fn want<K: Kind>(node: &mut Node, elements: &[K], wanted: &mut [K], line: usize, naming: &Naming<K>)
    ensures { world node.new elements.now wanted.new ≡ wanted_by K.model line (naming_view naming.now) (world node.old elements.now wanted.old) }
{
    let view = View {
        node,
        elements,
        line,
    };
    if !view.is_wanted(naming) {
        return;
    }
    match find_named(&node.wants, line, &naming.name) {
        Some(place) => {
            let open = instance_at(wanted, place);
            if naming.instance.rank(&open).is_higher() {
                want_at(node, wanted, place, line, naming);
            }
        }
        None => {
            if let Some(place) = free_in(&node.wants) {
                want_at(node, wanted, place, line, naming);
            }
        }
    }
}

// Due at once.
fn want_at<K: Kind>(
    node: &mut Node,
    wanted: &mut [K],
    place: usize,
    line: usize,
    naming: &Naming<K>,
)
    ensures node { node.new ≡ with_lines node.old (slice_set node.old.wants place (Some (new_want line naming.now.name))) node.old.lines }
    ensures wanted { wanted.new ≡ slice_set wanted.old place naming.now.instance }
{
    let want = Want {
        line,
        name: naming.name,
        count: SendCount::fresh(RESEND_LIMIT),
    };
    put(&mut node.wants, place, Some(want));
    put(wanted, place, naming.instance);
}

// In their order.
pub(crate) fn describe_each<K: Kind>(
    node: &mut Node,
    elements: &[K],
    wanted: &mut [K],
    line: usize,
    namings: &[Naming<K>],
)
    ensures { world node.new elements.now wanted.new ≡ described_all K.model line (map naming_view namings.now) (world node.old elements.now wanted.old) }
{
    for naming in namings {
        describe(node, elements, wanted, line, naming);
    }
}

// One element of a bundle, against the table as the one before left it.
ghost use Rattle.std.specs.Prelude.{◌≡◌};
ghost use Rattle.database.specs.Nodes.{world};
ghost use Rattle.exchange.specs.Arrivals.{arrived, entered_as, verdict_on};
ghost use Rattle.kinds.specs.Kinds.{is_expired};
ghost use Rattle.tables.specs.Searches.{free_place, place_of};
ghost use Rattle.tables.specs.Verdicts.{rank_at, verdict_of};
ghost use Rattle.arrivals.specs.Elements.{arriving};

use crate::marking;
use database::entry::Arrival;
use database::node::Node;
use kinds::kind::Kind;
use kinds::rank::Rank;
use kinds::recency::instance_at;
use tables::element::Element;
use tables::verdict::Verdict;
use tables::wants;

// Comes on a line, and may show there what is held, or call for it.
// Stays: the node and the rows are parameters of each call (a rule of the project, docs/DECISIONS.md, Language forms);
// element, instance and body come one by one: tried as one `Arrival`, and the borrow checker does not cover the function.
pub fn arrive<K: Kind>(
    node: &mut Node,
    elements: &mut [K],
    wanted: &[K],
    line: usize,
    element: Element,
    instance: K,
    body: &[u8],
) -> Verdict
    ensures verdict { result ≡ verdict_on K.model (arriving element instance body.now) (world node.old elements.old wanted.now) }
    ensures world { world node.new elements.new wanted.now ≡ arrived K.model line (arriving element instance body.now) (world node.old elements.old wanted.now) }
{
    let arrival = Arrival {
        element,
        instance,
        body,
    };
    let verdict = judge(node, elements, &arrival);
    match verdict {
        Verdict::Same(place) => marking::show(&mut node.lines, line, place),
        Verdict::Newer(place) | Verdict::New(place) => {
            enter(node, elements, wanted, place, arrival);
            marking::show_same(&mut node.lines, line, elements, &instance, place);
        }
        Verdict::Older(place) => marking::owe(&mut node.lines, line, place),
        Verdict::Gone => wants::close_wants(&mut node.wants, wanted, &element.name, &instance),
        Verdict::NoPlace => {}
    }
    verdict
}

fn judge<K: Kind>(node: &Node, elements: &[K], arrival: &Arrival<'_, K>) -> Verdict
    ensures { result ≡ verdict_of (place_of node.now.places arrival.now.element.name) (rank_at K.model elements.now arrival.now.instance (place_of node.now.places arrival.now.element.name)) (is_expired K.model arrival.now.instance) (free_place node.now.places) }
{
    let held = node.find(&arrival.element.name);
    let rank = rank_at(elements, &arrival.instance, held);
    Verdict::of(held, rank, arrival.instance.is_expired(), node.free_place())
}

// Where none is held nothing hangs on the rank.
fn rank_at<K: Kind>(elements: &[K], instance: &K, held: Option<usize>) -> Rank
    ensures { result ≡ rank_at K.model elements.now instance.now held }
{
    held.map_or(
        Rank::Higher,
        |place| instance.rank(&instance_at(elements, place)),
    )
}

// What comes back under our own ID unexpired enters in its expired form, with an empty body.
fn enter<K: Kind>(
    node: &mut Node,
    elements: &mut [K],
    wanted: &[K],
    place: usize,
    arrival: Arrival<'_, K>,
)
    ensures { world node.new elements.new wanted.now ≡ entered_as K.model place (arriving arrival.entry.element arrival.entry.instance arrival.entry.body.now) (world node.old elements.old wanted.now) }
{
    let entry = if arrival.element.name.node.same(&node.id) && !arrival.instance.is_expired() {
        Arrival {
            instance: arrival.instance.expired(),
            body: &[],
            ..arrival
        }
    } else {
        arrival
    };
    node.enter(elements, wanted, place, entry);
}

// Places chosen in order, for a summary, a request or a bundle.
ghost use Rattle.std.specs.Prelude.{◌≡◌, ℕ, Bool};
ghost use Rattle.places.specs.Lists.{listed};
ghost use Rattle.exchange.specs.Acceptance.{all_held, with_held};
ghost use Rattle.exchange.specs.Handing.{due_want};
ghost use Rattle.exchange.specs.Selections.{first_places};
ghost use Rattle.exchange.specs.Summaries.{first_marked};

use lines::marks::RESEND_LIMIT;
use places::list::PlaceList;
use places::set::PlaceSet;
use tables::element::Element;
use tables::want::Want;

// A summary or a request names no more.
pub const MOST: usize = 32;

// The first 32 held places that pass.
// Stays a walk over all places with `keep`: `take` would need the same list and a count of its own.
fn first_places<T: Copy, F: Fn(usize, &T) -> bool>(table: &[Option<T>], passes: F) -> PlaceList
    requires { F.IsAlwaysCallable passes }
    ensures { (f : ℕ → T → Bool) → ((p : _) (x : _) (b : _) → F.post passes p x b → b ≡ f p x.now) → listed result ≡ first_places f table.now }
{
    let mut list = PlaceList::new();
    for (place, held) in table.iter().enumerate() {
        if let Some(item) = held {
            list.keep(place, passes(place, item), MOST);
        }
    }
    list
}

// The first 32 held places with a mark.
pub fn first_marked(marks: &PlaceSet, places: &[Option<Element>]) -> PlaceList
    ensures { listed result ≡ first_marked marks.now places.now }
{
    first_places(places, |place, _| marks.contains(place))
}

// The first 32 due wants of a line.
pub fn first_due_wants(line: usize, wants: &[Option<Want>]) -> PlaceList
    ensures { listed result ≡ first_places (due_want line) wants.now }
{
    first_places(
        wants,
        |_, want| want.line == line && want.count.is_due(RESEND_LIMIT),
    )
}

// Every held place.
pub fn all_held(places: &[Option<Element>]) -> PlaceSet
    ensures { result ≡ all_held places.now }
{
    let mut set = PlaceSet::empty();
    for (place, held) in places.iter().enumerate() {
        insert_held(&mut set, place, held);
    }
    set
}

fn insert_held(set: &mut PlaceSet, place: usize, held: &Option<Element>)
    ensures { set.new ≡ with_held place held.now set.old }
{
    if held.is_some() {
        set.insert(place);
    }
}

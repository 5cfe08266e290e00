// Searches by name and for a free place.
ghost use Rattle.std.specs.Prelude.{◌≡◌};
ghost use Rattle.tables.specs.Searches.{free_place, is_free, is_named, place_of};
ghost use Rattle.lines.specs.Tables.{First};

use crate::element::Element;
use packets::ids::Name;

pub fn find_in(places: &[Option<Element>], name: &Name) -> Option<usize>
    ensures place { result ≡ place_of places.now name.now }
    ensures first { First (is_named name.now) places.now result }
{
    places.iter().position(|held| is_named(held, name))
}

fn is_named(held: &Option<Element>, name: &Name) -> bool
    ensures { result ≡ is_named name.now held.now }
{
    held.as_ref().is_some_and(|element| element.name.same(name))
}

pub fn free_in<T: Copy>(places: &[Option<T>]) -> Option<usize>
    ensures place { result ≡ free_place places.now }
    ensures first { First is_free places.now result }
{
    places.iter().position(|held| held.is_none())
}

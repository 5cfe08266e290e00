// Where a name is held, and where a new one would be.
ghost use Rattle.std.specs.Prelude.{◌≡◌, ◌<◌, IfSome};
ghost use Rattle.tables.specs.Searches.{free_place, is_free, is_named, place_of};
ghost use Rattle.lines.specs.Tables.{First};

use crate::node::Node;
use packets::ids::Name;
use tables::search;

impl Node {
    pub fn find(&self, name: &Name) -> Option<usize>
        ensures place { result ≡ place_of self.now.places name.now }
        ensures first { First (is_named name.now) self.now.places result }
        ensures within { IfSome result (λ p. p < 64) }
    {
        search::find_in(&self.places, name)
    }

    pub fn free_place(&self) -> Option<usize>
        ensures place { result ≡ free_place self.now.places }
        ensures first { First is_free self.now.places result }
        ensures within { IfSome result (λ p. p < 64) }
    {
        search::free_in(&self.places)
    }
}

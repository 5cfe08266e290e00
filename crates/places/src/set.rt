// A set of places, such as those whose elements are owed to a neighbour.
ghost use Rattle.std.specs.Prelude.{◌≡◌, true, false};
ghost use Rattle.places.specs.PlaceSets.{Changed, all_clear, has, mark_at, marked, no_places, with_place, without_place};

use crate::row::put;

#[derive(Clone, Copy)]
pub struct PlaceSet {
    marks: [bool; 64],
}

impl PlaceSet {
    pub fn empty() -> PlaceSet
        ensures { result ≡ no_places }
    {
        PlaceSet { marks: no_marks() }
    }

    // No place above 63 is in a set.
    pub fn contains(&self, place: usize) -> bool
        ensures { result ≡ has self.now place }
    {
        read_mark(&self.marks, place)
    }

    #[tactic(auto, using(crate::proofs::PlaceSetLaws::inserted, crate::proofs::PlaceSetLaws::inserted_only))]
    pub fn insert(&mut self, place: usize)
        ensures after { self.new ≡ with_place self.old place }
        ensures meaning { Changed self.old place true self.new }
    {
        put(&mut self.marks, place, true);
    }

    #[tactic(auto, using(crate::proofs::PlaceSetLaws::removed, crate::proofs::PlaceSetLaws::removed_only))]
    pub fn remove(&mut self, place: usize)
        ensures after { self.new ≡ without_place self.old place }
        ensures meaning { Changed self.old place false self.new }
    {
        put(&mut self.marks, place, false);
    }
}

fn no_marks() -> [bool; 64]
    ensures { result ≡ all_clear }
{
    [false; 64]
}

fn read_mark(marks: &[bool], at: usize) -> bool
    ensures { result ≡ mark_at marks.now at }
{
    marks.get(at).copied().unwrap_or(false)
}

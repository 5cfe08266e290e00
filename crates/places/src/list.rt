// A list of at most N items, in fixed memory.
ghost use Rattle.std.specs.Prelude.{◌≡◌, ◌≤◌, [], ⊤};

use std::alloc::AllocError;

pub struct List<T, const N: usize> {
    items: [T; N],
    count: usize,
    ghost within: { count ≤ N },
}

// Stays by hand: tried, and the check derives no `Clone` here (derive-over-ghost-field).
impl<T: Copy, const N: usize> Copy for List<T, N> {}

impl<T: Copy, const N: usize> Clone for List<T, N> {
    ghost is_clone = { λ l copy. copy ≡ l };

    ghost is_infallible = { λ _. ⊤ };

    fn clone(&self) -> Result<List<T, N>, AllocError> {
        Ok(*self)
    }
}

// Places in order, at most 64.
pub type PlaceList = List<usize, 64>;

impl<T: Copy, const N: usize> List<T, N> {
    ghost use Rattle.places.specs.Lists.{listed, pushed};

    // Without items; the blank fills the memory that no item has.
    pub fn empty(blank: T) -> List<T, N>
        ensures { listed result ≡ [] }
    {
        List {
            items: [blank; N],
            count: 0,
        }
    }

    // The item comes last; a full list stays as it is.
    #[tactic(auto, using(crate::proofs::ListLaws::pushed_here, crate::proofs::ListLaws::pushed_none))]
    pub fn push(&mut self, item: T)
        ensures { listed self.new ≡ pushed N (listed self.old) item }
    {
        // Stays: of an array's `get_mut` a proof knows no element once the borrow is over.
        if self.count < N {
            self.items[self.count] = item;
            self.count += 1;
        }
    }

    pub fn as_slice(&self) -> &[T]
        ensures { result.now ≡ listed self.now }
    {
        &self.items[..self.count]
    }
}

impl List<usize, 64> {
    ghost use Rattle.places.specs.Lists.{listed};
    ghost use Rattle.places.specs.PlaceLists.{kept};

    pub fn new() -> PlaceList
        ensures { listed result ≡ [] }
    {
        List::empty(0)
    }

    // Adds a place that passes, as long as there are fewer than the limit and than 64.
    // Stays: `passes` is in its clause (`kept`), and an `if` at its one caller is no plainer.
    pub fn keep(&mut self, place: usize, passes: bool, limit: usize)
        ensures { listed self.new ≡ kept (listed self.old) place passes limit }
    {
        if passes && self.count < limit {
            self.push(place);
        }
    }
}

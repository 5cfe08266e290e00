// What becomes of an element that arrives.
ghost use Rattle.std.specs.Prelude.{◌≡◌};
ghost use Rattle.tables.specs.Verdicts.{verdict_of};

use kinds::rank::Rank;

// With the place of the element held, or the free place that a new one takes.
#[derive(Clone, Copy)]
pub enum Verdict {
    Same(usize),
    Newer(usize),
    Older(usize),
    Gone,
    New(usize),
    NoPlace,
}

impl Verdict {
    // The first row that fits. How the arrival ranks against what is held counts only where its name is held.
    // Stays one match over a rank beside the place held: a rule of the project (docs/DECISIONS.md, Language forms fixed from the start).
    pub fn of(held: Option<usize>, rank: Rank, expired: bool, free: Option<usize>) -> Verdict
        ensures { result ≡ verdict_of held rank expired free }
    {
        match (held, rank, free) {
            (Some(place), Rank::Same, _) => Verdict::Same(place),
            (Some(place), Rank::Higher, _) => Verdict::Newer(place),
            (Some(place), Rank::Lower, _) => Verdict::Older(place),
            (None, _, _) if expired => Verdict::Gone,
            (None, _, Some(place)) => Verdict::New(place),
            (None, _, None) => Verdict::NoPlace,
        }
    }
}

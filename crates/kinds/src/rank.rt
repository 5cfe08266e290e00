// Recency: how an instance ranks against another of the same element.
ghost use Rattle.std.specs.Prelude.{◌≡◌};
ghost use Rattle.kinds.specs.Ranks.{rank_of};
ghost use Rattle.kinds.specs.Recency.{is_higher};

use std::cmp::Ordering;

// Stays: a rank is no `Ordering`, which has equality (docs/DECISIONS.md, No equality on instances).
#[derive(Clone, Copy)]
pub enum Rank {
    Lower,
    Same,
    Higher,
}

impl From<Ordering> for Rank {
    ghost from_gives = { λ order rank. rank ≡ rank_of order };

    fn from(order: Ordering) -> Rank {
        match order {
            Ordering::Less => Rank::Lower,
            Ordering::Equal => Rank::Same,
            Ordering::Greater => Rank::Higher,
        }
    }
}

impl Rank {
    pub fn is_higher(self) -> bool
        ensures { result ≡ is_higher self }
    {
        matches!(self, Rank::Higher)
    }
}

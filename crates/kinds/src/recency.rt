// Which instance is newest, and what follows one.
ghost use Rattle.std.specs.Prelude.{◌≡◌, length, MatchOption};
ghost use Rattle.kinds.specs.Recency.{Newest, Succeeds, instance_at, newest_of, successor_of};

use crate::kind::Kind;

// The index of the newest of some instances of one element, the first of those that rank the same.
pub fn newest<K: Kind>(instances: &[K]) -> Option<usize>
    ensures value { result ≡ newest_of K.model instances.now }
    ensures newest { MatchOption result (length instances.now ≡ 0) (Newest K.model instances.now) }
{
    instances
        .iter()
        .enumerate()
        .reduce(|(best, newest), (index, instance)| {
            if instance.rank(newest).is_higher() {
                (index, instance)
            } else {
                (best, newest)
            }
        })
        .map(|(index, _)| index)
}

// The instance under which an element goes on: the next after the one held, or the first where none is held.
pub fn successor<K: Kind>(held: Option<K>, check: u16, time: u16) -> Option<K>
    ensures value { result ≡ successor_of K.model held check time }
    ensures succeeds { Succeeds K.model held time result }
{
    match held {
        Some(instance) => instance.next(check, time),
        None => Some(K::first(check, time)),
    }
}

// The instance at a place of a row. A place past the end holds none, and is given the first, which nothing looks at.
pub fn instance_at<K: Kind>(row: &[K], place: usize) -> K
    ensures { result ≡ instance_at K.model row.now place }
{
    row.get(place).copied().unwrap_or_else(|| K::first(0, 0))
}

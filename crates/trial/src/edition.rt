// An edition in words: its fields, and the key by which it is newer than another.
ghost use Rattle.std.specs.Prelude.{◌≡◌};
ghost use Rattle.kinds.specs.declared.rank.Rank.{Rank};
ghost use Rattle.kinds.specs.declared.rank.Rank.TheVariants.{Higher};
ghost use Rattle.trial.specs.declared.key.Key.{Key};
ghost use Rattle.trial.specs.Keys.{cache_by, topology_by};

use crate::key::Key;
use kinds::cache::Cache;
use kinds::kind::Kind;
use kinds::topology::Topology;
use std::fmt;

pub(crate) trait Edition: Kind {
    ghost by: { Key → Self → Self → Rank };

    fn write_fields<W: fmt::Write>(&self, f: &mut fmt::Formatter<W>) -> fmt::Result;

    // Where this edition is newer than the other, it is newer by the key that is answered.
    fn newer_by(&self, other: &Self) -> Key
        ensures { Self.Kind.model.rank self.now other.now ≡ Higher → by result self.now other.now ≡ Higher };
}

// The fields of an edition.
#[derive(Drop)]
pub(crate) struct Fields<'a, E>(pub &'a E);

impl<E: Edition> fmt::Display for Fields<'_, E> {
    fn fmt<W: fmt::Write>(&self, f: &mut fmt::Formatter<W>) -> fmt::Result {
        self.0.write_fields(f)
    }
}

impl Edition for Topology {
    ghost by = { topology_by };

    fn write_fields<W: fmt::Write>(&self, f: &mut fmt::Formatter<W>) -> fmt::Result {
        let Topology {
            sequence,
            check,
            lifetime,
        } = *self;
        write!(f, "sequence {sequence}, check {check}, lifetime {lifetime}")
    }

    fn newer_by(&self, other: &Topology) -> Key {
        if self.sequence != other.sequence {
            Key::Sequence
        } else if self.is_expired() != other.is_expired() {
            Key::Expiry
        } else {
            Key::Check
        }
    }
}

impl Edition for Cache {
    ghost by = { cache_by };

    fn write_fields<W: fmt::Write>(&self, f: &mut fmt::Formatter<W>) -> fmt::Result {
        let Cache {
            sequence,
            flags,
            hold,
        } = *self;
        write!(
            f,
            "sequence {sequence}, flags {flags:04x}, hold time {hold}"
        )
    }

    fn newer_by(&self, other: &Cache) -> Key {
        if self.sequence != other.sequence {
            Key::Sequence
        } else {
            Key::Expiry
        }
    }
}

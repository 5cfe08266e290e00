// The topology kind: the instance of a PTSE, as its header has it.
ghost use Rattle.std.specs.Prelude.{◌≡◌};
ghost use Rattle.kinds.specs.Topologies.{topology};
ghost use Rattle.kinds.specs.TopologyLaws.{topology_laws};

use crate::kind::Kind;
use crate::rank::Rank;

#[derive(Clone, Copy)]
pub struct Topology {
    pub sequence: u32,
    pub check: u16,
    // Seconds left; 0 in the expired form.
    pub lifetime: u16,
}

impl Kind for Topology {
    ghost model = { topology };

    ghost laws = { topology_laws };

    fn read(bytes: [u8; 8]) -> Topology {
        let [s0, s1, s2, s3, c0, c1, l0, l1] = bytes;
        Topology {
            sequence: u32::from_be_bytes([s0, s1, s2, s3]),
            check: u16::from_be_bytes([c0, c1]),
            lifetime: u16::from_be_bytes([l0, l1]),
        }
    }

    fn write(&self) -> [u8; 8] {
        let Topology {
            sequence,
            check,
            lifetime,
        } = *self;
        let [s0, s1, s2, s3] = sequence.to_be_bytes();
        let [c0, c1] = check.to_be_bytes();
        let [l0, l1] = lifetime.to_be_bytes();
        [s0, s1, s2, s3, c0, c1, l0, l1]
    }

    // The larger sequence, then expired over unexpired, then the larger check.
    fn rank(&self, other: &Topology) -> Rank {
        let sequence = self.sequence.cmp(&other.sequence);
        let expiry = self.is_expired().cmp(&other.is_expired());
        let check = self.check.cmp(&other.check);
        Rank::from(sequence.then(expiry).then(check))
    }

    fn left(&self) -> u16 {
        self.lifetime
    }

    fn older(&self) -> Topology {
        Topology {
            lifetime: self.left().saturating_sub(1),
            ..*self
        }
    }

    fn expired(&self) -> Topology {
        Topology {
            lifetime: 0,
            ..*self
        }
    }

    fn first(check: u16, time: u16) -> Topology {
        Topology {
            sequence: 1,
            check,
            lifetime: time,
        }
    }

    fn next(&self, check: u16, time: u16) -> Option<Topology> {
        let sequence = self.sequence.checked_add(1)?;
        Some(Topology {
            sequence,
            check,
            lifetime: time,
        })
    }
}

// The time left comes first in the bytes, instances that rank the same may differ in bytes and in being expired, and the
// rank goes by a sum of two fields.
ghost use Rattle.std.specs.Prelude.{◌≡◌, ◌+◌};
ghost use Rattle.odd_kind.specs.Odds.{key_of, odd};
ghost use Rattle.odd_kind.specs.OddLaws.{odd_laws};

use kinds::kind::Kind;
use kinds::rank::Rank;

#[derive(Clone, Copy)]
pub struct Odd {
    pub time: u16,
    pub boot: u16,
    pub step: u16,
    // How often it has changed since it was made, modulo 65,536; it does not rank.
    pub changes: u16,
}

impl Odd {
    // Being expired counts as one step.
    fn key(&self) -> u32
        ensures { result ≡ key_of self.now }
    {
        let step = u32::from(self.step);
        if self.is_expired() { step + 1 } else { step }
    }
}

impl Kind for Odd {
    ghost model = { odd };

    ghost laws = { odd_laws };

    fn read(bytes: [u8; 8]) -> Odd {
        let [t0, t1, b0, b1, s0, s1, c0, c1] = bytes;
        Odd {
            time: u16::from_be_bytes([t0, t1]),
            boot: u16::from_be_bytes([b0, b1]),
            step: u16::from_be_bytes([s0, s1]),
            changes: u16::from_be_bytes([c0, c1]),
        }
    }

    fn write(&self) -> [u8; 8] {
        let Odd {
            time,
            boot,
            step,
            changes,
        } = *self;
        let [t0, t1] = time.to_be_bytes();
        let [b0, b1] = boot.to_be_bytes();
        let [s0, s1] = step.to_be_bytes();
        let [c0, c1] = changes.to_be_bytes();
        [t0, t1, b0, b1, s0, s1, c0, c1]
    }

    fn rank(&self, other: &Odd) -> Rank {
        let boot = self.boot.cmp(&other.boot);
        let key = self.key().cmp(&other.key());
        Rank::from(boot.then(key))
    }

    fn left(&self) -> u16 {
        self.time
    }

    fn older(&self) -> Odd {
        match self.left() {
            0 => *self,
            time => Odd {
                time: time - 1,
                changes: self.changes.wrapping_add(1),
                ..*self
            },
        }
    }

    fn expired(&self) -> Odd {
        Odd {
            time: 0,
            changes: self.changes.wrapping_add(1),
            ..*self
        }
    }

    fn first(check: u16, time: u16) -> Odd {
        Odd {
            time,
            boot: check,
            step: 1,
            changes: 0,
        }
    }

    // Two steps, so that it is above the expired form too.
    fn next(&self, _check: u16, time: u16) -> Option<Odd> {
        let step = self.step.checked_add(2)?;
        Some(Odd {
            time,
            boot: self.boot,
            step,
            changes: 0,
        })
    }
}

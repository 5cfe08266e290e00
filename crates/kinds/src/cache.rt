// The cache kind: the instance of an address server's cache record, after the CSA sequence of RFC 2334.
ghost use Rattle.std.specs.Prelude.{◌≡◌};
ghost use Rattle.kinds.specs.Caches.{cache};
ghost use Rattle.kinds.specs.CacheLaws.{cache_laws};

use crate::kind::Kind;
use crate::rank::Rank;

// Set in an instance that is withdrawn: it is expired whatever its hold time.
const WITHDRAWN: u16 = 0x8000;

#[derive(Clone, Copy)]
pub struct Cache {
    pub sequence: i32,
    pub flags: u16,
    // Seconds left, unless the top flag is set.
    pub hold: u16,
}

impl Kind for Cache {
    ghost model = { cache };

    ghost laws = { cache_laws };

    fn read(bytes: [u8; 8]) -> Cache {
        let [s0, s1, s2, s3, f0, f1, h0, h1] = bytes;
        Cache {
            sequence: i32::from_be_bytes([s0, s1, s2, s3]),
            flags: u16::from_be_bytes([f0, f1]),
            hold: u16::from_be_bytes([h0, h1]),
        }
    }

    fn write(&self) -> [u8; 8] {
        let Cache {
            sequence,
            flags,
            hold,
        } = *self;
        let [s0, s1, s2, s3] = sequence.to_be_bytes();
        let [f0, f1] = flags.to_be_bytes();
        let [h0, h1] = hold.to_be_bytes();
        [s0, s1, s2, s3, f0, f1, h0, h1]
    }

    // The larger sequence as a signed number, then expired over unexpired.
    fn rank(&self, other: &Cache) -> Rank {
        let sequence = self.sequence.cmp(&other.sequence);
        let expiry = self.is_expired().cmp(&other.is_expired());
        Rank::from(sequence.then(expiry))
    }

    fn left(&self) -> u16 {
        if self.flags & WITHDRAWN == 0 {
            self.hold
        } else {
            0
        }
    }

    // An expired instance does not age, and what runs out takes the expired form.
    fn older(&self) -> Cache {
        match self.left() {
            0 => *self,
            1 => self.expired(),
            left => Cache {
                hold: left - 1,
                ..*self
            },
        }
    }

    fn expired(&self) -> Cache {
        Cache {
            flags: self.flags | WITHDRAWN,
            hold: 0,
            ..*self
        }
    }

    fn first(_check: u16, time: u16) -> Cache {
        Cache {
            sequence: -i32::MAX,
            flags: 0,
            hold: time,
        }
    }

    fn next(&self, _check: u16, time: u16) -> Option<Cache> {
        let sequence = self.sequence.checked_add(1)?;
        Some(Cache {
            sequence,
            flags: 0,
            hold: time,
        })
    }
}

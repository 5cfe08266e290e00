// A kind of instance: operations on instances, tied to a model that keeps the laws.
ghost use Rattle.std.specs.Prelude.{◌≡◌, true};
ghost use Rattle.kinds.specs.Kinds.{Laws, Operations, is_expired};

use crate::rank::Rank;

pub trait Kind: Copy {
    ghost model: { Operations Self };

    // Stays: bytes are read and written by the kind's own functions, not by `From`, so that its model and laws speak of them.
    fn read(bytes: [u8; 8]) -> Self
        ensures { result ≡ model.read bytes };

    // The second clause hands generic code the premise under which reading undoes writing.
    fn write(&self) -> [u8; 8]
        ensures value { result ≡ model.write self.now }
        ensures fits { model.fits self.now ≡ true };

    fn rank(&self, other: &Self) -> Rank
        ensures { result ≡ model.rank self.now other.now };

    // Seconds.
    fn left(&self) -> u16
        ensures { result ≡ model.left self.now };

    // The same instance one second later.
    fn older(&self) -> Self
        ensures { result ≡ model.older self.now };

    fn expired(&self) -> Self
        ensures { result ≡ model.expired self.now };

    // Stays: check number and time come one by one, as laws and model take them (docs/DECISIONS.md, Language forms: a trait with laws).
    fn first(check: u16, time: u16) -> Self
        ensures { result ≡ model.first check time };

    // What follows this instance, or `None` after the last one.
    fn next(&self, check: u16, time: u16) -> Option<Self>
        ensures { result ≡ model.next self.now check time };

    fn is_expired(&self) -> bool
        ensures { result ≡ is_expired model self.now }
    {
        self.left() == 0
    }

    ghost laws: { Laws model };
}

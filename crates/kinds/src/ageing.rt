// What becomes of an instance as time goes by.
ghost use Rattle.std.specs.Prelude.{◌≡◌};
ghost use Rattle.kinds.specs.Ageing.{Ageing, aged};

use crate::kind::Kind;

// The instance some seconds later. An expired instance does not age, so the count stops at the time left.
pub fn after<K: Kind>(instance: &K, seconds: u32) -> K
    ensures value { result ≡ aged K.model seconds instance.now }
    ensures course { Ageing K.model instance.now seconds result }
{
    let seconds = seconds.min(u32::from(instance.left()));
    (0..seconds).fold(*instance, |current, _second| current.older())
}

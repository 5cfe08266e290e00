// The keys by which editions of an element rank, as a tester would name them.
use std::fmt;

#[derive(Clone, Copy)]
pub(crate) enum Key {
    Sequence,
    Expiry,
    Check,
}

// What the newer of two editions has over the other.
impl fmt::Display for Key {
    fn fmt<W: fmt::Write>(&self, f: &mut fmt::Formatter<W>) -> fmt::Result {
        f.write_str(match self {
            Key::Sequence => "its sequence is larger",
            Key::Expiry => "it is expired, at the same sequence",
            Key::Check => "its check is larger, at the same sequence and as much expired",
        })
    }
}

// The words of a line that is read, and why a line is bad.
use crate::hex;
use std::alloc::{AllocError, AllocFailed, Global};
use std::fmt;
use std::str::FromStr;

#[derive(Clone, Copy)]
pub(crate) enum KindName {
    Topology,
    Cache,
}

impl fmt::Display for KindName {
    fn fmt<W: fmt::Write>(&self, f: &mut fmt::Formatter<W>) -> fmt::Result {
        f.write_str(match self {
            KindName::Topology => "topology",
            KindName::Cache => "cache",
        })
    }
}

impl<'a> TryFrom<&'a str> for KindName {
    type Error = Fault<'a>;

    fn try_from(word: &'a str) -> Result<KindName, Fault<'a>> {
        match word {
            "topology" => Ok(KindName::Topology),
            "cache" => Ok(KindName::Cache),
            _ => Err(Fault::Found {
                expected: "topology or cache",
                word,
            }),
        }
    }
}

#[derive(Clone, Copy)]
pub(crate) enum Fault<'a> {
    Found {
        expected: &'static str,
        word: &'a str,
    },
    Ends {
        expected: &'static str,
    },
    // Of the whole line, as too few words, or too many.
    Line {
        expected: &'static str,
    },
    Memory,
}

impl fmt::Display for Fault<'_> {
    fn fmt<W: fmt::Write>(&self, f: &mut fmt::Formatter<W>) -> fmt::Result {
        match *self {
            Fault::Found { expected, word } => write!(f, "expected {expected}, found '{word}'"),
            Fault::Ends { expected } => write!(f, "expected {expected}, found the end of the line"),
            Fault::Line { expected } => write!(f, "expected {expected}"),
            Fault::Memory => write!(f, "no memory is left"),
        }
    }
}

impl From<AllocError> for Fault<'_> {
    fn from(_error: AllocError) -> Self {
        Fault::Memory
    }
}

impl<T: Drop> From<AllocFailed<T>> for Fault<'_> {
    fn from(_error: AllocFailed<T>) -> Self {
        Fault::Memory
    }
}

pub(crate) fn number<'a, N: FromStr>(word: &'a str, expected: &'static str) -> Result<N, Fault<'a>>
where
    N::Err: Drop,
{
    word.parse::<N>()
        .map_err(|_| Fault::Found { expected, word })
}

pub(crate) fn array<'a, const N: usize>(
    word: &'a str,
    expected: &'static str,
) -> Result<[u8; N], Fault<'a>> {
    hex::array(word).ok_or(Fault::Found { expected, word })
}

// Bytes in hex digits, or `-` for none.
pub(crate) fn bytes<'a>(
    heap: Global,
    word: &'a str,
    expected: &'static str,
) -> Result<Vec<u8>, Fault<'a>> {
    let digits = if word == "-" { "" } else { word };
    hex::bytes(heap, digits)?.ok_or(Fault::Found { expected, word })
}

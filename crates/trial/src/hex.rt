// Bytes as hexadecimal digits.
ghost use Rattle.std.specs.Prelude.{◌≡◌, ◌<◌, IfSome};
ghost use Rattle.trial.specs.Hex.{digit_of};

use std::alloc::{AllocError, Global};
use std::fmt;

#[derive(Clone, Copy)]
pub(crate) struct Hex<'a>(pub &'a [u8]);

impl fmt::Display for Hex<'_> {
    fn fmt<W: fmt::Write>(&self, f: &mut fmt::Formatter<W>) -> fmt::Result {
        for byte in self.0 {
            write!(f, "{byte:02x}")?;
        }
        Ok(())
    }
}

// The value of a digit, which is below 16.
fn digit(b: u8) -> Option<u8>
    ensures value { result ≡ digit_of b }
    ensures below { IfSome result (λ d. d < 16) }
{
    match b {
        b'0'..=b'9' => Some(b - b'0'),
        b'a'..=b'f' => Some(b - b'a' + 10),
        b'A'..=b'F' => Some(b - b'A' + 10),
        _ => None,
    }
}

// The byte that two digits stand for.
fn byte(high: u8, low: u8) -> Option<u8> {
    Some(digit(high)? * 16 + digit(low)?)
}

// As many bytes as the array has, from twice as many digits.
pub(crate) fn array<const N: usize>(text: &str) -> Option<[u8; N]> {
    let (pairs, []) = text.as_bytes().as_chunks::<2>() else {
        return None;
    };
    if pairs.len() != N {
        return None;
    }
    let mut bytes = [0; N];
    for (place, [high, low]) in bytes.iter_mut().zip(pairs) {
        *place = byte(*high, *low)?;
    }
    Some(bytes)
}

// The bytes that digits stand for, in pairs; spaces between them do not count. `None` where there is anything else.
pub(crate) fn bytes(heap: Global, text: &str) -> Result<Option<Vec<u8>>, AllocError> {
    let mut all = Vec::new(heap);
    let mut first = None;
    for digit in text.bytes().filter(|b| !b.is_ascii_whitespace()) {
        match first.take() {
            None => first = Some(digit),
            Some(high) => match byte(high, digit) {
                Some(byte) => all.push(byte)?,
                None => return Ok(None),
            },
        }
    }
    Ok(first.is_none().then_some(all))
}

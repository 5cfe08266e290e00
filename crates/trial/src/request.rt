// A request on a line of its own: KIND EDITION.. [after SECONDS] [next CHECK TIME].
ghost use Rattle.std.specs.Prelude.{◌≤◌, length};
ghost use Rattle.std.specs.Str.Iter.{split_whitespace_rest};

use crate::words;
use crate::words::{Fault, KindName};
use std::alloc::Global;
use std::num::NonZeroU16;
use std::str::{FromStr, SplitWhitespace};

#[derive(Drop)]
pub(crate) struct Request {
    pub kind: KindName,
    pub editions: Vec<[u8; 8]>,
    // How much later to look at each edition, in seconds.
    pub after: u32,
    // Check number and time of the edition that would come next.
    pub check: u16,
    pub time: u16,
}

const EDITION: &str = "an edition of sixteen hex digits, 'after' or 'next'";

const SECONDS: &str = "a number of seconds";

const CHECK: &str = "a check number of 0 to 65535";

const TIME: &str = "a time of 1 to 65535 seconds";

// `None` for a line without words.
pub(crate) fn read(heap: Global, line: &str) -> Result<Option<Request>, Fault<'_>> {
    let mut words = line.split_whitespace();
    let Some(word) = words.next() else {
        return Ok(None);
    };
    let mut request = Request {
        kind: KindName::try_from(word)?,
        editions: Vec::new(heap),
        after: 60,
        check: 0,
        time: 3600,
    };
    while let Some(word) = words.next() {
        match word {
            "after" => request.after = number(&mut words, SECONDS)?,
            "next" => {
                request.check = number(&mut words, CHECK)?;
                request.time = number::<NonZeroU16>(&mut words, TIME)?.get();
            }
            _ => request.editions.push(words::array(word, EDITION)?)?,
        }
    }
    if request.editions.is_empty() {
        return Err(Fault::Ends { expected: EDITION });
    }
    Ok(Some(request))
}

// The next word as a number.
fn number<'a, N: FromStr>(
    words: &mut SplitWhitespace<'a>,
    expected: &'static str,
) -> Result<N, Fault<'a>>
where
    N::Err: Drop,
    ensures { length (split_whitespace_rest words.new) ≤ length (split_whitespace_rest words.old) }
{
    words::number(words.next().ok_or(Fault::Ends { expected })?, expected)
}

// What a call gave: its answer, and what was written.
use crate::shown::Shown;
use calls::refusal::Refusal;
use std::fmt;

#[derive(Drop)]
pub(crate) struct Outcome {
    pub answer: Result<(), Refusal>,
    // How many elements found no place.
    pub left: usize,
    pub written: Option<Vec<u8>>,
}

// Of a call that writes no packet.
impl From<Result<(), Refusal>> for Outcome {
    fn from(answer: Result<(), Refusal>) -> Outcome {
        Outcome {
            answer,
            left: 0,
            written: None,
        }
    }
}

impl Outcome {
    // The number of the refusal, or 0.
    pub(crate) fn number(&self) -> u8 {
        self.answer.err().map_or(0, u8::from)
    }

    // The packet written, without bytes where there is none.
    pub(crate) fn packet(&self) -> &[u8] {
        self.written.as_deref().unwrap_or_default()
    }
}

impl fmt::Display for Outcome {
    fn fmt<W: fmt::Write>(&self, f: &mut fmt::Formatter<W>) -> fmt::Result {
        let number = self.number();
        match self.answer {
            Ok(()) => write!(f, "done ({number})"),
            Err(refusal) => {
                let reason = Shown(refusal);
                write!(f, "refused ({number}): {reason}")
            }
        }
    }
}

// How the program writes refusals and verdicts.
use codec::{Error, Progress};
use std::fmt;

// A refusal, by its number.
#[derive(Clone, Copy)]
pub struct Refusal(pub Error);

impl fmt::Display for Refusal {
    fn fmt<W: fmt::Write>(&self, f: &mut fmt::Formatter<W>) -> fmt::Result {
        let number = u8::from(self.0);
        write!(f, "refused {number}")
    }
}

// What a call consumed and produced, or its refusal.
#[derive(Clone, Copy)]
pub struct Answer(pub Result<Progress, Error>);

impl fmt::Display for Answer {
    fn fmt<W: fmt::Write>(&self, f: &mut fmt::Formatter<W>) -> fmt::Result {
        match self.0 {
            Ok(progress) => {
                let Progress { consumed, produced } = progress;
                write!(f, "{consumed} {produced}")
            }
            Err(error) => Refusal(error).fmt(f),
        }
    }
}

// Whether the code gives what stands before it.
#[derive(Clone, Copy)]
pub struct Verdict(pub bool);

impl fmt::Display for Verdict {
    fn fmt<W: fmt::Write>(&self, f: &mut fmt::Formatter<W>) -> fmt::Result {
        f.write_str(if self.0 { "holds" } else { "fails" })
    }
}

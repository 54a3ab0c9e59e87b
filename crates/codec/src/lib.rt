// What a codec's call gives back: how much it consumed and produced, or a refusal.
#![tactic(auto)]

ghost use Rattle.std.specs.Prelude.{◌≡◌, Some};
ghost use Rattle.codec.specs.Errors.{error_number, error_text};
ghost use Rattle.codec.specs.Answers.{told, progress_of, is_stalled, refused_after};

use std::{error, fmt};

// Why a call was refused.
#[derive(Clone, Copy, Debug, PartialEq, Eq)]
pub enum Error {
    Incomplete,
    InvalidHeader,
    InvalidParameter,
    InvalidData,
    BufferTooSmall,
}

// The refusal's number in document 01.
impl From<Error> for u8 {
    ghost from_gives = { λ error number. number ≡ error_number error };

    fn from(error: Error) -> u8 {
        match error {
            Error::Incomplete => 1,
            Error::InvalidHeader => 2,
            Error::InvalidParameter => 3,
            Error::InvalidData => 4,
            Error::BufferTooSmall => 5,
        }
    }
}

// The refusal's name in words.
impl fmt::Display for Error {
    ghost output = { λ error. Some (error_text error) };

    fn fmt<W: fmt::Write>(&self, f: &mut fmt::Formatter<W>) -> fmt::Result {
        f.write_str(match self {
            Error::Incomplete => "incomplete",
            Error::InvalidHeader => "invalid header",
            Error::InvalidParameter => "invalid parameter",
            Error::InvalidData => "invalid data",
            Error::BufferTooSmall => "buffer too small",
        })
    }
}

impl error::Error for Error {}

// How much a call consumed and produced: bytes and samples for a decoder, samples and bytes for an encoder.
#[derive(Clone, Copy, Debug, PartialEq, Eq)]
pub struct Progress {
    pub consumed: usize,
    pub produced: usize,
}

impl Progress {
    #[tactic(auto, unfolding(crate::specs::Answers::progress_of))]
    pub fn new(consumed: usize, produced: usize) -> Progress
        ensures { result ≡ progress_of consumed produced }
    {
        Progress { consumed, produced }
    }

    // Whether nothing was consumed or produced.
    #[tactic(auto, unfolding(crate::specs::Answers::is_stalled))]
    pub fn is_stalled(self) -> bool
        ensures { result ≡ is_stalled self }
    {
        self.consumed == 0 && self.produced == 0
    }
}

// What a refusal makes a call give back: the progress where a frame was accepted before it.
#[tactic(auto, unfolding(crate::specs::Answers::refused_after))]
pub fn refusal_or_progress(error: Error, progress: Progress) -> Result<Progress, Error>
    ensures { told result ≡ refused_after progress (error_number error) }
{
    if progress.consumed == 0 {
        return Err(error);
    }
    Ok(progress)
}

// How a run ends: with its input, or by a failure.
use std::error::Error;
use std::{fmt, io};

#[derive(Debug, Drop)]
pub enum End {
    // No whole request is left, or one is that the program does not take.
    Input,
    Failed(io::Error),
}

impl fmt::Display for End {
    fn fmt<W: fmt::Write>(&self, f: &mut fmt::Formatter<W>) -> fmt::Result {
        match self {
            End::Input => f.write_str("no request is left"),
            End::Failed(error) => error.fmt(f),
        }
    }
}

impl Error for End {}

impl From<io::Error> for End {
    fn from(error: io::Error) -> End {
        End::Failed(error)
    }
}

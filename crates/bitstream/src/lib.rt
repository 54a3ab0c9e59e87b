// A reader and a writer of bits that hold their slice and a position in it.
#![tactic(auto)]

pub mod reader;
pub mod writer;

pub use reader::{BitReader, read_bits};
pub use writer::{BitWriter, write_bits};

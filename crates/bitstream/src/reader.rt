// A reader that holds its bytes and a position, thin over `read_at`: what is to be decided is decided by the function on a slice and a
// number.
ghost use Rattle.std.specs.Prelude.{◌≡◌};
ghost use Rattle.codec.specs.Answers.{told};
ghost use Rattle.bits.specs.Fields.{told_read, read_at};
ghost use Rattle.bitstream.specs.Held.{reader_over, read_by};

use bits::{Read, read_at};
use codec::Error;

// The bytes of a frame, and the position of the bit to be read next.
#[derive(Clone, Copy)]
pub struct BitReader<'a> {
    pub bytes: &'a [u8],
    pub position: usize,
}

impl<'a> BitReader<'a> {
    // A reader at the first bit.
    #[tactic(auto, unfolding(crate::specs::Held::reader_over))]
    pub fn new(bytes: &'a [u8]) -> BitReader<'a>
        ensures { result ≡ reader_over bytes.entry }
    {
        BitReader { bytes, position: 0 }
    }

    // Reads `count` bits and moves past them; past the end, Incomplete, and nothing moves.
    #[tactic(auto, unfolding(crate::specs::Held::read_by, bits::specs::Fields::told_read))]
    pub fn read(&mut self, count: u32) -> Result<u32, Error>
        ensures { (told result, self.new) ≡ read_by self.old count }
    {
        let read = read_at(self.bytes, self.position, count)?;
        self.position = read.position;
        Ok(read.value)
    }
}

// `read_at` through a reader in a local. Its promise speaks of no reader.
#[tactic(auto, unfolding(crate::specs::Held::read_by, bits::specs::Fields::told_read, bits::specs::Fields::read_at))]
pub fn read_bits(bytes: &[u8], position: usize, count: u32) -> Result<Read, Error>
    ensures { told_read position result ≡ read_at bytes.now position count }
{
    let mut reader = BitReader { bytes, position };
    let value = reader.read(count)?;
    Ok(Read {
        value,
        position: reader.position,
    })
}

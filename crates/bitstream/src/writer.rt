// A writer that holds its bytes and a position, thin over `write_at`, as the reader is over `read_at`.
ghost use Rattle.std.specs.Prelude.{◌≡◌};
ghost use Rattle.codec.specs.Answers.{told};
ghost use Rattle.bits.specs.Fields.{told_written, write_at};
ghost use Rattle.bitstream.specs.Held.{writer_over, write_by};

use bits::write_at;
use codec::Error;

// The bytes lent for a frame, and the position of the bit to be written next.
#[derive(Drop)]
pub struct BitWriter<'a> {
    pub bytes: &'a mut [u8],
    pub position: usize,
}

impl<'a> BitWriter<'a> {
    // A writer at the first bit.
    #[tactic(auto, unfolding(crate::specs::Held::writer_over))]
    pub fn new(bytes: &'a mut [u8]) -> BitWriter<'a>
        ensures { result ≡ writer_over bytes.entry }
    {
        BitWriter { bytes, position: 0 }
    }

    // Writes the low `count` bits of `value` and moves past them; past the end, BufferTooSmall, and nothing moves and nothing is written.
    #[tactic(auto, unfolding(crate::specs::Held::write_by, bits::specs::Fields::told_written))]
    pub fn write(&mut self, value: u32, count: u32) -> Result<(), Error>
        ensures { (told result, self.new) ≡ write_by self.old value count }
    {
        self.position = write_at(self.bytes, self.position, value, count)?;
        Ok(())
    }
}

// `write_at` through a writer in a local, as `read_bits` is.
#[tactic(auto, unfolding(crate::specs::Held::write_by, bits::specs::Fields::told_written, bits::specs::Fields::write_at))]
pub fn write_bits(bytes: &mut [u8], position: usize, value: u32, count: u32) -> Result<usize, Error>
    ensures { told_written position result bytes.new ≡ write_at bytes.old position value count }
{
    let mut writer = BitWriter { bytes, position };
    writer.write(value, count)?;
    Ok(writer.position)
}

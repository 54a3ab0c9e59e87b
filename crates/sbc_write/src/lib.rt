// The bits of a frame's body, written one field after the other.
#![tactic(auto)]

ghost use Rattle.std.specs.Prelude.{ℕ, ◌+◌, ◌*◌, ◌^◌, ◌≤◌, ◌<◌, length, get_or};

use sbc_frame::{BlockCount, Blocks, Quantization};
use sbc_quantizer::quantize;

// Where the next whole byte goes, and the bits that do not fill a byte yet.
#[derive(Clone, Copy)]
pub struct Writer {
    pub at: usize,
    pub held: u32,
    pub bits: u64,
    pub ghost held_within: { held < 8 },
    pub ghost bits_within: { bits < 2 ^ held },
}

// The bytes lent for a body, and how far they are written. That each byte is below 256 is said here, since the check knows it of a slice,
// but not of one that a field lends.
#[derive(Drop)]
pub struct BodyWriter<'a> {
    pub bytes: &'a mut [u8],
    pub writer: Writer,
    pub ghost bytes_within: { (i : ℕ) → get_or bytes.now i 0 < 256 },
}

impl<'a> BodyWriter<'a> {
    ghost use Rattle.std.specs.Prelude.{◌≡◌, ◌-◌, []};
    ghost use denote.Ref.{at_last};
    ghost use Rattle.laws.specs.Bits.{bits_of};
    ghost use Rattle.laws.specs.Lists.{total};
    ghost use Rattle.sbc_frame.specs.Layout.{filled};
    ghost use Rattle.sbc_frame.specs.Arrays.{entry};
    ghost use Rattle.sbc_write.specs.Writing.{bits_in, count_in, Room, Wrote};
    ghost use Rattle.sbc_write.specs.Writing.{row_bits, block_bits_of, value_bits_of, values_width, widths_of, factors_of};

    // A writer at the first bit.
    #[tactic(auto, unfolding(crate::specs::Writing::bits_behind, laws::specs::Bits::bits_of, laws::specs::Bits::bits_of_bytes))]
    pub fn new(bytes: &'a mut [u8]) -> BodyWriter<'a>
        ensures same_bytes { result.bytes ≡ bytes.entry }
        ensures written { bits_in result ≡ [] }
        ensures counted { count_in result ≡ 0 }
    {
        BodyWriter {
            bytes,
            writer: Writer {
                at: 0,
                held: 0,
                bits: 0,
            },
        }
    }

    // The low `count` bits of a value behind all that is written, flushed by bytes; no byte behind is touched.
    // Kept: `for byte in &mut self.bytes[at..at + held / 8]` proves, and is slower by more than 1 %: a frame of 8 subbands is encoded in
    // 32344 instructions for 30239 (joint stereo, bitpool 53), and in 30059 for 28353 (dual channel).
    fn put(&mut self, value: u32, count: u32)
        requires short { count ≤ 16 }
        requires low { value < 2 ^ count }
        requires room { Room self.old count }
        ensures { Wrote self.old self.new (bits_of count value) }
    {
        let mut at = self.writer.at;
        let mut held = self.writer.held + count;
        let mut bits = (self.writer.bits << count) + u64::from(value);
        while 8 <= held {
            held -= 8;
            self.bytes[at] = (bits >> held) as u8;
            bits %= 1 << held;
            at += 1;
        }
        self.writer = Writer { at, held, bits };
    }

    // The bits that do not fill a byte, with zeros behind them.
    pub fn finish(&mut self)
        requires room { Room self.old 0 }
        requires last { 8 * length self.old.bytes.now < count_in self.old + 8 }
        ensures whole { self.new.bytes ≡ at_last self.old.bytes (filled (length self.old.bytes.now) (bits_in self.old)) }
        ensures zeros { let w = self.old in Wrote w self.new (bits_of (8 * length w.bytes.now - count_in w) 0) }
    {
        if 0 < self.writer.held {
            self.put(0, 8 - self.writer.held);
        }
    }

    // The numbers of a row, of `width` bits each.
    pub fn put_row(&mut self, row: &[u8], width: u32)
        requires short { width ≤ 8 }
        requires low { (s : ℕ) → entry row.now s < 2 ^ width }
        requires room { Room self.old (length row.now * width) }
        ensures { Wrote self.old self.new (row_bits row.now width (length row.now)) }
    {
        for entry in row {
            self.put(u32::from(*entry), width);
        }
    }

    // The quantized values of a channel in a block, from the block's samples. A subband of 0 bits has none.
    fn put_block(&mut self, row: &[i32; 8], quantization: &Quantization)
        requires room { Room self.old (total 8 (entry quantization.now.widths)) }
        ensures { Wrote self.old self.new (block_bits_of row.now quantization.now.widths quantization.now.factors) }
    {
        for s in 0..8 {
            let width = quantization.widths[s];
            if width != 0 {
                let value = quantize(row[s], quantization.factors[s], width);
                self.put(value, u32::from(width));
            }
        }
    }

    // The quantized values of both channels in all blocks.
    pub fn put_values(
        &mut self,
        samples: &[Blocks; 2],
        quantizations: &[Quantization; 2],
        blocks: BlockCount,
    )
        requires room { Room self.old (blocks.count * values_width (widths_of quantizations.now)) }
        ensures { let q = quantizations.now in
            Wrote self.old self.new (value_bits_of samples.now (widths_of q) (factors_of q) blocks.count) }
    {
        for block in 0..blocks.count {
            self.put_block(&samples[0].rows[block], &quantizations[0]);
            self.put_block(&samples[1].rows[block], &quantizations[1]);
        }
    }
}

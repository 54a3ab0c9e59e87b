// A frame's bytes to the subband samples of its channels.
#![tactic(auto)]

ghost use Rattle.std.specs.Prelude.{◌≡◌, ◌++◌, ℕ, ◌+◌, ◌-◌, ◌*◌, ◌^◌, ◌≤◌, ◌<◌};
ghost use Rattle.std.specs.Prelude.{[], length, take, drop, get_or, replicate, nat_abs};
ghost use Rattle.laws.specs.Bits.{number_of, bits_of_bytes};
ghost use Rattle.laws.specs.Lists.{build, total};
ghost use Rattle.bits.specs.Fields.{number_at};
ghost use Rattle.sbc_frame.specs.Layout.{unpack};
ghost use Rattle.sbc_frame.specs.Encoding.{sample_at};
ghost use Rattle.sbc_frame.specs.Arrays.{with_subband, with_flagged, no_samples, samples_array, rows_of, entry, Small};
ghost use Rattle.sbc_read.specs.Reading.{row_at, flag_row, factor_row, value_of, channel_values, read_samples, restored_at, channel_array};

use laws::{power_of_two, sum_of};
use sbc_allocation::allocate;
use sbc_frame::{BlockCount, Blocks, Factors, FrameBytes, Quantization, Samples};
use sbc_parameters::AcceptedSet;
use sbc_quantizer::Dequantizer;

// Where the values of a channel stand, and how they are quantized: the bit of the first value, the bits of a block, and how many
// blocks there are. All of them stand in a frame that has zeros behind it.
#[derive(Clone, Copy)]
struct Values {
    quantization: Quantization,
    position: usize,
    block_bits: usize,
    blocks: BlockCount,
    ghost some_blocks: { 0 < blocks.count },
    ghost room: { (b : ℕ) → b < blocks.count → position + b * block_bits + total 8 (entry quantization.widths) ≤ 4192 },
}

// The frame with zeros behind it, so that four bytes stand from each of its bytes on.
fn padded(frame: &[u8]) -> [u8; 528]
    requires { length frame.now ≤ 524 }
    ensures { result ≡ frame.now ++ replicate (528 - length frame.now) 0 }
{
    let mut bytes = [0; 528];
    bytes[..frame.len()].copy_from_slice(frame);
    bytes
}

// Four bytes as one number, the high byte first.
fn word(bytes: &[u8; 528], at: usize) -> u32
    requires { at + 4 ≤ 528 }
    ensures { result ≡ number_of (bits_of_bytes (take 4 (drop at bytes.now))) }
{
    u32::from_be_bytes([bytes[at], bytes[at + 1], bytes[at + 2], bytes[at + 3]])
}

// The number that `count` bits from bit `position` on write. They stand in four bytes.
// Kept: beside `bits::read_at`, which says the same of any bytes: by it a decoded frame takes 16 to 20 % more instructions (35,103 of
// HIGH_QUALITY for 29,671), with 4 subbands 0.87 of the Rust's, past the most of any frame today (docs/DECISIONS.md, 44, BENCHMARKS.md).
fn number_at(bytes: &[u8; 528], position: usize, count: u8) -> u32
    requires { (0 < count) × (count ≤ 16) × (position ≤ 4192) }
    ensures { (result ≡ number_at bytes.now position count) × (result < 2 ^ count) }
{
    let count = u32::from(count);
    let low = 32 - (position % 8) as u32 - count;
    (word(bytes, position / 8) >> low) % power_of_two(count)
}

// `count` numbers of `width` bits each, end to end from `position` on.
// Kept: a row of eight and how many of them count, since the codec keeps to fixed memory.
fn read_row(bytes: &[u8; 528], position: usize, width: u8, count: usize) -> [u8; 8]
    requires { (0 < width) × (width ≤ 4) × (count ≤ 8) × (position + count * width ≤ 4192) }
    ensures { result ≡ row_at bytes.now position width count }
{
    let mut row = [0; 8];
    for s in 0..count {
        row[s] = number_at(bytes, position + s * usize::from(width), width) as u8;
    }
    row
}

impl Values {
    // The samples of one subband, whose first value stands at bit `at`.
    fn read_subband(&self, samples: &mut Blocks, bytes: &[u8; 528], subband: usize, at: usize)
        requires subband { subband < 8 }
        requires some { 0 < entry self.now.quantization.widths subband }
        requires place { at ≡ self.now.position + total subband (entry self.now.quantization.widths) }
        ensures { let q = self.now.quantization in
            samples.new.rows
            ≡ with_subband self.now.blocks.count subband
            (value_of bytes.now at self.now.block_bits (entry q.widths subband) (entry q.factors subband)) samples.old.rows }
    {
        let width = self.quantization.widths[subband];
        let dequantizer = Dequantizer::new(width, self.quantization.factors[subband]);
        for block in 0..self.blocks.count {
            let value = number_at(bytes, at + block * self.block_bits, width);
            samples.rows[block][subband] = dequantizer.apply(value);
        }
    }

    // The samples of the channel, in place of zeros. A subband of 0 bits has no values, and its samples stay 0.
    // Kept: `at` beside the range, here and `position` in `read_channels`: a sum of widths, and no index.
    fn read(&self, samples: &mut Blocks, bytes: &[u8; 528])
        requires { samples.old.rows ≡ no_samples }
        ensures { let q = self.now.quantization in let n = self.now.blocks.count in
            samples.new.rows ≡ samples_array n (channel_values bytes.now q.widths q.factors self.now.position self.now.block_bits n) }
    {
        let mut at = self.position;
        for (subband, width) in self.quantization.widths.iter().enumerate() {
            if *width != 0 {
                self.read_subband(samples, bytes, subband, at);
                at += usize::from(*width);
            }
        }
    }
}

// The scale factors of a frame, whose bytes have zeros behind them.
fn read_factors(accepted: AcceptedSet, bytes: &[u8; 528]) -> Factors
    ensures { result.rows ≡ build 2 (factor_row accepted.set bytes.now) }
{
    let set = accepted.set;
    let first = 32 + set.join_count();
    let subbands = usize::from(set.subbands);
    let mut rows = [[0; 8]; 2];
    for channel in 0..usize::from(set.channels()) {
        rows[channel] = read_row(bytes, first + 4 * subbands * channel, 4, subbands);
    }
    Factors { rows }
}

// What is read of the channels of a frame, whose bytes have zeros behind them. In a block the values of the second channel stand
// behind the first's.
fn read_channels(accepted: AcceptedSet, bytes: &[u8; 528], factors: &Factors) -> [Blocks; 2]
    ensures { (c : ℕ) → c < 2 → rows_of result c ≡ read_samples accepted.set bytes.now factors.now.rows c }
{
    let set = accepted.set;
    let widths = allocate(set, factors.rows);
    let mut channels = [Blocks { rows: [[0; 8]; 16] }; 2];
    let mut position = 32 + set.side_bits();
    for channel in 0..2 {
        let values = Values {
            quantization: Quantization {
                widths: widths[channel],
                factors: factors.rows[channel],
            },
            position,
            block_bits: set.block_bits(),
            blocks: BlockCount::from(accepted),
        };
        values.read(&mut channels[channel], bytes);
        position += sum_of(&widths[channel]) as usize;
    }
    channels
}

// Sum and difference of one subband, in place of its samples.
// Kept: that the subband is below 8, here, in `read_subband` and in sbc_join's `cost`: each is called where a loop over a row's eight
// entries says it; a type of such a number would be made there and taken apart here.
fn join_subband(channels: &mut [Blocks; 2], subband: usize, blocks: BlockCount)
    requires low { subband < 8 }
    requires long { (c : ℕ) → c < 2 → length (rows_of channels.old c) ≡ 16 }
    requires small { (c b : ℕ) → c < 2 → b < blocks.count → nat_abs (sample_at (rows_of channels.old c) b subband) ≤ 2 ^ 27 }
    ensures { (c : ℕ) → c < 2
        → rows_of channels.new c
        ≡ with_subband blocks.count subband (λ b. restored_at channels.old c b subband) (rows_of channels.old c) }
{
    for block in 0..blocks.count {
        let left = channels[0].rows[block][subband];
        let right = channels[1].rows[block][subband];
        channels[0].rows[block][subband] = left + right;
        channels[1].rows[block][subband] = left - right;
    }
}

// Sum and difference for every join flag that is set.
fn join(channels: &mut [Blocks; 2], flags: &[u8; 8], blocks: BlockCount)
    requires long { (c : ℕ) → c < 2 → length (rows_of channels.old c) ≡ 16 }
    requires eight { (c b : ℕ) → c < 2 → b < blocks.count → length (get_or (rows_of channels.old c) b []) ≡ 8 }
    requires small { (c : ℕ) → c < 2 → Small blocks.count (2 ^ 27) (rows_of channels.old c) }
    ensures { (c : ℕ) → c < 2
        → rows_of channels.new c ≡ with_flagged blocks.count flags.now (restored_at channels.old c) (rows_of channels.old c) }
{
    for (subband, flag) in flags.iter().enumerate() {
        if *flag == 1 {
            join_subband(channels, subband, blocks);
        }
    }
}

// The samples of a frame's channels. Where a frame has one channel, the second has no scale factors, and so no bits.
pub fn read_frame(frame: FrameBytes) -> Samples
    ensures accepted { result.accepted ≡ frame.entry.accepted }
    ensures channels { let p = frame.entry.accepted.set in
        (c : ℕ) → c < 2 → rows_of result.channels c ≡ channel_array p (unpack p frame.entry.bytes.now) c }
{
    let accepted = frame.accepted;
    let bytes = padded(frame.bytes);
    let flags = read_row(&bytes, 32, 1, accepted.set.join_count());
    let factors = read_factors(accepted, &bytes);
    let mut channels = read_channels(accepted, &bytes, &factors);
    join(&mut channels, &flags, BlockCount::from(accepted));
    Samples { accepted, channels }
}

// One frame of an SBC stream: what the code of both directions holds of it. Its definitions stand in specs/, and their laws in proofs/; the
// code that decodes and encodes one is in the crates sbc_decode_frame and sbc_encode_frame.
#![tactic(auto)]

mod blocks;

ghost use Rattle.std.specs.Prelude.{ℕ, ◌≡◌, ◌^◌, ◌≤◌, ◌<◌, [], length, get_or, nat_abs};
ghost use Rattle.sbc_parameters.specs.Sizes.{frame_length};
ghost use Rattle.sbc_frame.specs.Arrays.{entry, rows_of};
ghost use Rattle.sbc_frame.specs.Encoding.{sample_at};

pub use blocks::Blocks;
use sbc_parameters::AcceptedSet;

// How many blocks a frame has.
#[derive(Clone, Copy)]
pub struct BlockCount {
    pub count: usize,
    pub ghost at_most_16: { count ≤ 16 },
}

// Those that an accepted set says.
impl From<AcceptedSet> for BlockCount {
    ghost from_gives = { λ accepted blocks. blocks.count ≡ accepted.set.blocks };

    fn from(accepted: AcceptedSet) -> BlockCount {
        BlockCount {
            count: usize::from(accepted.set.blocks),
        }
    }
}

// The scale factors of both channels, by channel and subband. Where a frame has one channel, the second's are 0.
#[derive(Clone, Copy)]
pub struct Factors {
    pub rows: [[u8; 8]; 2],
    pub ghost long: { (c : ℕ) → c < 2 → length (get_or rows c []) ≡ 8 },
    pub ghost within: { (c s : ℕ) → entry (get_or rows c []) s ≤ 15 },
}

// How a channel's values are quantized: the bits of a value and the scale factor, by subband.
// Kept: two rows and no row of pairs: `allocate` gives the one, a frame has the other, and no one asks for a pair before it is used.
#[derive(Clone, Copy)]
pub struct Quantization {
    pub widths: [u8; 8],
    pub factors: [u8; 8],
    pub ghost widths_within: { (s : ℕ) → entry widths s ≤ 16 },
    pub ghost factors_within: { (s : ℕ) → entry factors s ≤ 15 },
}

// What is coded of a frame: join flags by subband, scale factors, and the samples of both channels.
// Kept: the flags are 0 and 1 in a row of numbers, since the functions that write and read the scale factors write and read them too; a
// row of bools would be made of numbers by the one side and turned into numbers by the other, for two tests in between.
#[derive(Clone, Copy)]
pub struct CodedFrame {
    pub flags: [u8; 8],
    pub factors: Factors,
    pub samples: [Blocks; 2],
    pub ghost flags_within: { (s : ℕ) → entry flags s ≤ 1 },
}

// The bytes of a whole frame: as many as a frame of its set of parameters has.
#[derive(Clone, Copy)]
pub struct FrameBytes<'a> {
    pub accepted: AcceptedSet,
    pub bytes: &'a [u8],
    pub ghost whole: { length bytes.now ≡ frame_length accepted.set },
}

// The subband samples of a frame's channels, small enough to be played. The second channel's are 0 where a frame has one.
#[derive(Clone, Copy)]
pub struct Samples {
    pub accepted: AcceptedSet,
    pub channels: [Blocks; 2],
    pub ghost small: { (c b s : ℕ) → b < accepted.set.blocks → nat_abs (sample_at (rows_of channels c) b s) ≤ 2 ^ 28 },
}

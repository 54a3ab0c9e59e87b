// The parameters of an SBC stream: which sets are accepted, the sizes of a frame, and its header.
#![tactic(auto)]

ghost use Rattle.std.specs.Prelude.{◌≡◌, ◌+◌, ◌*◌, ◌<◌, ◌≤◌};
ghost use Rattle.laws.specs.Lists.{all_of};
ghost use Rattle.codec.specs.Answers.{told};
ghost use Rattle.sbc_parameters.specs.Parameters.{high_quality, msbc, channels, maximum_bitpool, is_msbc, field_tests, accepted, validate};
ghost use Rattle.sbc_parameters.specs.Sizes.{join_count, side_bits, block_bits, frame_length, samples_per_channel, frame_samples};
ghost use Rattle.sbc_parameters.specs.Sizes.{maximum_frame_length, maximum_frame_samples};
ghost use Rattle.sbc_parameters.specs.Header.{frequency_index, settings_byte, header, from_settings, parse};

mod accepted_set;

pub use accepted_set::AcceptedSet;
use codec::Error;
use laws::{is_listed, place_in};
use sbc_modes::{SbcAllocation, SbcChannelMode};

// A constant has no contract of its own: beside each public one stands a function that gives it back, whose contract says its definition.

// The largest SBC frame, in bytes.
pub const SBC_MAXIMUM_FRAME_LENGTH: usize = 524;

pub fn maximum_frame_length() -> usize
    ensures { result ≡ maximum_frame_length }
{
    SBC_MAXIMUM_FRAME_LENGTH
}

// The most samples that one frame decodes to, all channels together: 16 blocks of 8 subbands for 2 channels.
pub const SBC_MAXIMUM_FRAME_SAMPLES: usize = 256;

pub fn maximum_frame_samples() -> usize
    ensures { result ≡ maximum_frame_samples }
{
    SBC_MAXIMUM_FRAME_SAMPLES
}

const SYNCHRONIZATION: u8 = 0x9C;

const MSBC_SYNCHRONIZATION: u8 = 0xAD;

const MSBC_BLOCKS: u8 = 15;

const HEADER_SIZE: usize = 4;

const SAMPLE_RATES: [u32; 4] = [16_000, 32_000, 44_100, 48_000];

const BLOCK_COUNTS: [u32; 4] = [4, 8, 12, 16];

const SUBBAND_COUNTS: [u32; 2] = [4, 8];

// The parameters of an SBC stream, as each frame header has them.
#[derive(Clone, Copy, Debug, PartialEq, Eq)]
pub struct SbcParameters {
    // In Hz: 16000, 32000, 44100 or 48000.
    pub sample_rate: u32,
    pub channel_mode: SbcChannelMode,
    pub allocation: SbcAllocation,
    // A frame's: 4, 8, 12 or 16, and 15 for mSBC.
    pub blocks: u8,
    // A block's: 4 or 8.
    pub subbands: u8,
    // The bits spread across subbands in each block.
    pub bitpool: u8,
}

// The parameters that a header's settings byte and bitpool say.
#[tactic(auto, using(crate::proofs::Numbers::listed_at), unfolding(crate::specs::Header::from_settings))]
fn from_settings(settings: u8, bitpool: u8) -> SbcParameters
    ensures { result ≡ from_settings settings bitpool }
{
    SbcParameters {
        sample_rate: SAMPLE_RATES[usize::from(settings / 64)],
        channel_mode: SbcChannelMode::from_number(settings / 4 % 4),
        allocation: SbcAllocation::from_number(settings / 2 % 2),
        blocks: 4 * (settings / 16 % 4 + 1),
        subbands: 4 * (settings % 2 + 1),
        bitpool,
    }
}

// The settings byte of the indexes and numbers of its fields.
fn pack(rate: usize, blocks: usize, mode: u8, allocation: u8, subbands: usize) -> u8
    requires { (rate < 4) × (blocks < 4) × (mode < 4) × (allocation < 2) × (subbands < 2) }
    ensures { result ≡ rate * 64 + blocks * 16 + mode * 4 + allocation * 2 + subbands }
{
    rate as u8 * 64 + blocks as u8 * 16 + mode * 4 + allocation * 2 + subbands as u8
}

impl SbcParameters {
    // The A2DP high-quality setting: 44.1 kHz joint stereo, 16 blocks, 8 subbands, bitpool 53, about 328 kbit/s.
    pub const HIGH_QUALITY: SbcParameters = SbcParameters {
        sample_rate: 44_100,
        channel_mode: SbcChannelMode::JointStereo,
        allocation: SbcAllocation::Loudness,
        blocks: 16,
        subbands: 8,
        bitpool: 53,
    };

    // The mSBC setting of the hands-free profile: 16 kHz mono, 15 blocks, 8 subbands, bitpool 26, 57-byte frames.
    pub const MSBC: SbcParameters = SbcParameters {
        sample_rate: 16_000,
        channel_mode: SbcChannelMode::Mono,
        allocation: SbcAllocation::Loudness,
        blocks: 15,
        subbands: 8,
        bitpool: 26,
    };

    #[tactic(auto, unfolding(crate::specs::Parameters::msbc))]
    pub fn hands_free() -> SbcParameters
        ensures { result ≡ msbc }
    {
        SbcParameters::MSBC
    }

    // Reads the parameters from the first bytes of a frame.
    #[tactic(auto, using(crate::proofs::Parsing::parse_cases), unfolding(crate::specs::Parameters::msbc))]
    pub fn parse(header: &[u8]) -> Result<SbcParameters, Error>
        ensures { told result ≡ parse header.now }
    {
        if header.len() < 3 {
            return Err(Error::Incomplete);
        }
        if header[0] == MSBC_SYNCHRONIZATION {
            return Ok(SbcParameters::MSBC);
        }
        if header[0] == SYNCHRONIZATION {
            let parameters = from_settings(header[1], header[2]);
            if parameters.is_accepted() {
                return Ok(parameters);
            }
        }
        Err(Error::InvalidHeader)
    }

    // Checks that the parameters fit in a frame header; 15 blocks only as mSBC.
    #[tactic(auto, unfolding(crate::specs::Parameters::validate))]
    pub fn validate(self) -> Result<(), Error>
        ensures { told result ≡ validate self }
    {
        AcceptedSet::try_from(self)?;
        Ok(())
    }

    #[tactic(auto, unfolding(crate::specs::Parameters::accepted))]
    fn is_accepted(self) -> bool
        ensures { result ≡ accepted self }
    {
        if self.is_msbc() {
            return self == SbcParameters::MSBC;
        }
        self.has_listed_fields()
    }

    // Whether each field has a value that a header can say.
    #[tactic(auto, using(crate::proofs::Accepted::listing))]
    fn has_listed_fields(self) -> bool
        ensures { result ≡ all_of (field_tests self) }
    {
        is_listed(self.sample_rate, &SAMPLE_RATES)
            && is_listed(u32::from(self.blocks), &BLOCK_COUNTS)
            && is_listed(u32::from(self.subbands), &SUBBAND_COUNTS)
            && self.bitpool >= 2
            && usize::from(self.bitpool) <= self.maximum_bitpool()
    }

    // Whether these are mSBC parameters, recognized by their 15 blocks.
    #[tactic(auto, unfolding(crate::specs::Parameters::is_msbc))]
    pub fn is_msbc(self) -> bool
        ensures { result ≡ is_msbc self }
    {
        self.blocks == MSBC_BLOCKS
    }

    // The number of channels.
    pub fn channels(self) -> u8
        ensures { result ≡ channels self }
    {
        self.channel_mode.channels()
    }

    // The largest bitpool that the channel mode and the subbands allow.
    #[tactic(auto, unfolding(crate::specs::Parameters::maximum_bitpool))]
    pub fn maximum_bitpool(self) -> usize
        ensures { result ≡ maximum_bitpool self }
    {
        let subbands = usize::from(self.subbands);
        if self.channel_mode.is_separate() {
            return 16 * subbands;
        }
        32 * subbands
    }

    // The number of join flags: one a subband, in joint stereo only.
    #[tactic(auto, unfolding(crate::specs::Sizes::join_count))]
    pub fn join_count(self) -> usize
        ensures { (result ≡ join_count self) × (result ≤ 255) }
    {
        if self.channel_mode.is_joint() {
            return usize::from(self.subbands);
        }
        0
    }

    // The bits of the quantized values of one block.
    #[tactic(auto, unfolding(crate::specs::Sizes::block_bits))]
    pub fn block_bits(self) -> usize
        ensures { (result ≡ block_bits self) × (result ≤ 510) }
    {
        let channels = usize::from(self.channels());
        let bitpool = usize::from(self.bitpool);
        if self.channel_mode.is_separate() {
            return channels * bitpool;
        }
        bitpool
    }

    // The size of one frame in bytes.
    #[tactic(auto, unfolding(crate::specs::Sizes::frame_length, crate::specs::Sizes::audio_bits))]
    pub fn frame_length(self) -> usize
        ensures { result ≡ frame_length self }
    {
        let factors = usize::from(self.subbands) * usize::from(self.channels());
        let audio = self.join_count() + usize::from(self.blocks) * self.block_bits();
        HEADER_SIZE + factors / 2 + audio.div_ceil(8)
    }

    // The samples of one channel in a frame: blocks times subbands.
    #[tactic(auto, unfolding(crate::specs::Sizes::samples_per_channel))]
    pub fn samples_per_channel(self) -> usize
        ensures { result ≡ samples_per_channel self }
    {
        usize::from(self.blocks) * usize::from(self.subbands)
    }

    // The samples of all channels in a frame.
    #[tactic(auto, unfolding(crate::specs::Sizes::frame_samples, crate::specs::Sizes::samples_per_channel))]
    pub fn frame_samples(self) -> usize
        ensures { result ≡ frame_samples self }
    {
        let samples = self.samples_per_channel();
        samples * usize::from(self.channels())
    }

    // The index of the sample rate in the header.
    #[tactic(auto, unfolding(crate::specs::Header::frequency_index, crate::specs::Parameters::sample_rates))]
    pub fn frequency_index(self) -> usize
        ensures { result ≡ frequency_index self }
    {
        place_in(self.sample_rate, &SAMPLE_RATES)
    }

    // The settings byte of the header.
    #[tactic(auto, using(crate::proofs::Numbers::header_places), unfolding(crate::specs::Header::settings_byte))]
    fn settings_byte(self) -> u8
        ensures { result ≡ settings_byte self }
    {
        let rate = self.frequency_index();
        let blocks = place_in(u32::from(self.blocks), &BLOCK_COUNTS);
        let subbands = place_in(u32::from(self.subbands), &SUBBAND_COUNTS);
        pack(
            rate,
            blocks,
            u8::from(self.channel_mode),
            u8::from(self.allocation),
            subbands,
        )
    }

    // The first three bytes of a frame.
    #[tactic(auto, unfolding(crate::specs::Header::header))]
    pub fn header(self) -> [u8; 3]
        ensures { result ≡ header self }
    {
        if self.is_msbc() {
            return [MSBC_SYNCHRONIZATION, 0, 0];
        }
        [SYNCHRONIZATION, self.settings_byte(), self.bitpool]
    }

    // The bits of the join flags and scale factors, which the checksum covers behind the header.
    #[tactic(auto, unfolding(crate::specs::Sizes::side_bits))]
    pub fn side_bits(self) -> usize
        ensures { result ≡ side_bits self }
    {
        self.join_count() + 4 * (usize::from(self.subbands) * usize::from(self.channels()))
    }
}

impl Default for SbcParameters {
    ghost is_default = { λ p. p ≡ high_quality };

    #[tactic(auto, unfolding(crate::specs::Parameters::high_quality))]
    fn default() -> SbcParameters {
        SbcParameters::HIGH_QUALITY
    }
}

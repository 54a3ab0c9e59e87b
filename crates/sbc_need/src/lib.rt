// What each subband needs: from its scale factor and, by loudness, from the table of offsets.
#![tactic(auto)]

ghost use Rattle.std.specs.Prelude.{◌≡◌, [], ◌≤◌, get_or, pos};
ghost use Rattle.std.specs.Int.Signed.{mag};
ghost use Rattle.sbc_parameters.specs.Header.{frequency_index};
ghost use Rattle.sbc_tables.specs.Tables.{loudness_offsets};
ghost use Rattle.sbc_need.specs.Need.{halved, loudness_need, loudness_offset, need};

use sbc_modes::SbcAllocation;
use sbc_parameters::SbcParameters;
use sbc_tables::{Bank, Eight, Four};

// Halves a loudness above 0 only; a negative one stays as it is.
fn halve(loudness: i32) -> i32
    ensures { result ≡ halved loudness }
{
    if loudness > 0 { loudness / 2 } else { loudness }
}

// The need by loudness; a scale factor of 0 needs less than any other.
fn loudness_need(offset: i32, scale_factor: u8) -> i32
    requires { mag offset ≤ 4 }
    ensures { result ≡ loudness_need offset scale_factor }
{
    if scale_factor == 0 {
        return -5;
    }
    halve(i32::from(scale_factor) - offset)
}

// The loudness offset of a subband in the table of a bank, and 0 for one past the table.
fn offset_in<B: Bank>(rate: usize, subband: usize) -> i32
    ensures { result ≡ get_or (get_or (loudness_offsets B.SUBBANDS) rate []) subband (pos 0) }
{
    B::loudness_offsets(rate).get(subband).copied().unwrap_or(0)
}

// A set of parameters with the index of its rate, which is found once for all subbands.
#[derive(Clone, Copy)]
pub struct Needs {
    pub parameters: SbcParameters,
    pub rate: usize,
    pub ghost is_index: { rate ≡ frequency_index parameters },
}

impl From<SbcParameters> for Needs {
    ghost from_gives = { λ parameters needs. needs.parameters ≡ parameters };

    fn from(parameters: SbcParameters) -> Needs {
        Needs {
            parameters,
            rate: parameters.frequency_index(),
        }
    }
}

impl Needs {
    // The loudness offset of a subband, and 0 for one past the table.
    #[tactic(auto, unfolding(crate::specs::Need::loudness_offset, sbc_tables::specs::Tables::loudness_offsets))]
    fn offset(self, subband: usize) -> i32
        ensures { result ≡ loudness_offset self.parameters subband }
    {
        // Kept: one branch for each subband picks the type, by the rate's index. A slice of the rate's offsets, held in the struct, would be
        // picked once, but an allocation of joint stereo with 8 subbands then took 1683 to 1730 instructions, against 1643.
        if self.parameters.subbands == 4 {
            offset_in::<Four>(self.rate, subband)
        } else {
            offset_in::<Eight>(self.rate, subband)
        }
    }

    // The need of a subband with a scale factor.
    #[tactic(auto, using(crate::proofs::Bounds::offset_small), unfolding(crate::specs::Need::need))]
    pub fn need(self, scale_factor: u8, subband: usize) -> i32
        ensures { result ≡ need self.parameters scale_factor subband }
    {
        match self.parameters.allocation {
            SbcAllocation::Snr => i32::from(scale_factor),
            SbcAllocation::Loudness => loudness_need(self.offset(subband), scale_factor),
        }
    }
}

// The need of a subband with a scale factor.
pub fn bit_need(parameters: SbcParameters, scale_factor: u8, subband: usize) -> i32
    ensures { result ≡ need parameters scale_factor subband }
{
    Needs::from(parameters).need(scale_factor, subband)
}

// The bit allocation of SBC: the needs of each channel's subbands, and the bitpool shared among those of a group.
#![tactic(auto)]

ghost use Rattle.std.specs.Prelude.{◌≡◌, [], map, ℕ, ◌+◌, ◌*◌, ◌/◌, ◌%◌, ◌≤◌, ◌<◌, min, get_or, take};
ghost use Rattle.sbc_need.specs.Need.{need};
ghost use Rattle.sbc_share.specs.Share.{share};
ghost use Rattle.sbc_share.specs.Raised.{lowered};
ghost use Rattle.sbc_allocation.specs.Allocate.{channel_needs, rows_together, table_row, allocation_table};
ghost use Rattle.sbc_allocation.specs.Entries.{entries};

use sbc_modes::SbcChannelMode;
use sbc_need::Needs;
use sbc_parameters::SbcParameters;
use sbc_share::share_bits;
use std::array;

// The need 32 higher, so that it and every level of the search is a natural number.
fn raised_need(needs: Needs, scale_factor: u8, subband: usize) -> u32
    ensures { (lowered result ≡ need needs.parameters scale_factor subband) × (result ≤ 300) × (16 ≤ result) }
{
    (needs.need(scale_factor, subband) + 32) as u32
}

// The subbands that a row has room for: all of them, in accepted parameters.
fn used_subbands(parameters: SbcParameters) -> usize
    ensures { result ≡ min parameters.subbands 8 }
{
    usize::from(parameters.subbands.min(8))
}

// The needs of a channel's subbands, 32 higher.
fn channel_needs(parameters: SbcParameters, scale_factors: [u8; 8]) -> [u32; 8]
    ensures all { map lowered (take (min parameters.subbands 8) result) ≡ channel_needs parameters scale_factors }
    ensures least { (i : ℕ) → i < min parameters.subbands 8 → 16 ≤ get_or result i 0 }
{
    let mut raised = [0u32; 8];
    let needs = Needs::from(parameters);
    let subbands = used_subbands(parameters);
    for i in 0..subbands {
        raised[i] = raised_need(needs, scale_factors[i], i);
    }
    raised
}

// Left before right within a subband.
// Kept: places computed, here and in `row_of`: a group is served as one row, and an array of pairs would be taken apart again for
// `share_bits`.
fn both_channels(channels: [[u32; 8]; 2]) -> [u32; 16]
    ensures { result ≡ entries 16 (λ i. get_or (get_or channels (i % 2) []) (i / 2) 0) }
{
    array::from_fn(|i| channels[i % 2][i / 2])
}

// A channel's bits: of a group's, every `step`th from the first on.
fn row_of(bits: [u8; 16], first: usize, step: usize) -> [u8; 8]
    requires { (first < step) × (step ≤ 2) }
    ensures { result ≡ entries 8 (λ i. get_or bits (step * i + first) 0) }
{
    array::from_fn(|i| bits[step * i + first])
}

// The row of a channel that is a group by itself.
fn allocate_channel(parameters: SbcParameters, scale_factors: [u8; 8]) -> [u8; 8]
    ensures { result ≡ table_row (share (channel_needs parameters scale_factors) parameters.bitpool) }
{
    let subbands = used_subbands(parameters);
    // With no subbands, which no accepted set has, there is no level to search.
    if subbands == 0 {
        return [0u8; 8];
    }
    let raised = channel_needs(parameters, scale_factors);
    let bits = share_bits(&raised[..subbands], u32::from(parameters.bitpool));
    row_of(bits, 0, 1)
}

// The rows of both channels, which are one group.
fn allocate_channels(parameters: SbcParameters, scale_factors: [[u8; 8]; 2]) -> [[u8; 8]; 2]
    ensures { result ≡ map table_row (rows_together parameters.bitpool (channel_needs parameters (get_or scale_factors 0 [])) (channel_needs parameters (get_or scale_factors 1 []))) }
{
    let subbands = used_subbands(parameters);
    // As in `allocate_channel`.
    if subbands == 0 {
        return [[0u8; 8], [0u8; 8]];
    }
    let left = channel_needs(parameters, scale_factors[0]);
    let right = channel_needs(parameters, scale_factors[1]);
    let raised = both_channels([left, right]);
    let bits = share_bits(&raised[..2 * subbands], u32::from(parameters.bitpool));
    [row_of(bits, 0, 2), row_of(bits, 1, 2)]
}

// The bits of each channel's subbands, from their scale factors; entries that the parameters do not use are 0.
// Kept: two rows of eight, whatever the set has, since the codec keeps to fixed memory.
#[tactic(auto, using(crate::proofs::Tables::table_cases))]
pub fn allocate(parameters: SbcParameters, scale_factors: [[u8; 8]; 2]) -> [[u8; 8]; 2]
    ensures { result ≡ allocation_table parameters scale_factors }
{
    let [left, right] = scale_factors;
    match parameters.channel_mode {
        SbcChannelMode::Mono => [allocate_channel(parameters, left), [0u8; 8]],
        SbcChannelMode::DualChannel => [
            allocate_channel(parameters, left),
            allocate_channel(parameters, right),
        ],
        SbcChannelMode::Stereo | SbcChannelMode::JointStereo => {
            allocate_channels(parameters, scale_factors)
        }
    }
}

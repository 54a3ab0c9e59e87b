// PCM to the subband samples of a frame's channels, block by block through each channel's analysis filterbank.
#![tactic(auto)]

ghost use Rattle.std.specs.Prelude.{ℕ, ◌≡◌, ◌+◌, ◌*◌, ◌≤◌, ◌<◌, ltb, length, map, get_or, pos, if◌then◌else◌};
ghost use Rattle.laws.specs.Lists.{build};
ghost use Rattle.laws.specs.Sums.{up_to};
ghost use Rattle.sbc_filterbank.specs.Analysis.{shifted, analysis_outputs};
ghost use Rattle.sbc_filterbank.specs.Subbands.{Bands, padded};
ghost use Rattle.sbc_frame.specs.Arrays.{rows_of, no_samples, samples_array};
ghost use Rattle.sbc_frame.specs.Channels.{pcm_in, no_analysis, analyze_blocks, analysis_after};

use sbc_analyze::{AnalysisBank, analyze_by};
use sbc_filterbank::{Analysis, PcmChannel};
use sbc_frame::{BlockCount, Blocks};
use sbc_tables::{Bank, Eight, Four};

// A channel's samples of one block.
// Kept: places computed from the block, the sample and the channel, since the samples of two channels alternate in PCM; and the input with
// its channel beside it, and what it has to hold, from here to `analyze_channel`: a struct of both would hold the loan, for these four
// alone.
fn pcm_block<B: Bank>(input: &[i16], block: usize, channel: PcmChannel) -> [i16; 8]
    requires { (block + 1) * B.SUBBANDS * channel.count ≤ length input.now }
    ensures { result
        ≡ build 8 (up_to B.SUBBANDS (λ j. get_or input.now ((block * B.SUBBANDS + j) * channel.count + channel.index) (pos 0))) }
{
    let mut pcm = [0i16; 8];
    for j in 0..B::SUBBANDS {
        pcm[j] = input[(block * B::SUBBANDS + j) * channel.count + channel.index];
    }
    pcm
}

// One block of a channel.
fn analyze_block<B: AnalysisBank>(
    history: &mut [i16; 80],
    input: &[i16],
    block: usize,
    channel: PcmChannel,
) -> [i32; 8]
    requires { (block + 1) * B.SUBBANDS * channel.count ≤ length input.now }
    ensures history { history.new
        ≡ shifted B.SUBBANDS history.old
        (build B.SUBBANDS (λ j. get_or input.now ((block * B.SUBBANDS + j) * channel.count + channel.index) (pos 0))) }
    ensures outputs { result ≡ padded (analysis_outputs B.SUBBANDS history.new) }
{
    let pcm = pcm_block::<B>(input, block, channel);
    analyze_by::<B>(history, &pcm)
}

// All blocks of a channel, by one filterbank. The history is altered where the caller has it.
fn analyze_channel_by<B: AnalysisBank>(
    history: &mut [i16; 80],
    input: &[i16],
    blocks: BlockCount,
    channel: PcmChannel,
) -> Blocks
    requires { blocks.count * B.SUBBANDS * channel.count ≤ length input.now }
    ensures history { history.new
        ≡ analysis_after blocks.count B.SUBBANDS history.old (pcm_in channel.count channel.index (blocks.count * B.SUBBANDS) input.now) }
    ensures samples { result.rows
        ≡ samples_array blocks.count
        (analyze_blocks blocks.count B.SUBBANDS history.old (pcm_in channel.count channel.index (blocks.count * B.SUBBANDS) input.now)) }
{
    let mut samples = Blocks {
        rows: [[0i32; 8]; 16],
    };
    for block in 0..blocks.count {
        samples.rows[block] = analyze_block::<B>(history, input, block, channel);
    }
    samples
}

// All blocks of a channel.
pub fn analyze_channel(
    history: &mut [i16; 80],
    input: &[i16],
    blocks: BlockCount,
    subbands: usize,
    channel: PcmChannel,
) -> Blocks
    requires { (Bands subbands) × (blocks.count * subbands * channel.count ≤ length input.now) }
    ensures history { history.new
        ≡ analysis_after blocks.count subbands history.old (pcm_in channel.count channel.index (blocks.count * subbands) input.now) }
    ensures samples { result.rows
        ≡ samples_array blocks.count
        (analyze_blocks blocks.count subbands history.old (pcm_in channel.count channel.index (blocks.count * subbands) input.now)) }
{
    // Kept: one branch picks the type, since the number of subbands is known only as the program runs; it stands once a call.
    if subbands == 4 {
        return analyze_channel_by::<Four>(history, input, blocks, channel);
    }
    analyze_channel_by::<Eight>(history, input, blocks, channel)
}

// All channels of a frame, `count` of them. Of a channel that the frame does not have the samples are zeros, and the history stays as it
// is.
// Kept: the blocks, the subbands and the channels as numbers, here and in `analyze_channel`, which took any such: an `AcceptedSet` asks
// more.
pub fn analyze_channels(
    histories: &mut [Analysis; 2],
    input: &[i16],
    blocks: BlockCount,
    subbands: usize,
    count: usize,
) -> [Blocks; 2]
    requires { (Bands subbands) × (0 < count) × (count ≤ 2) × (blocks.count * subbands * count ≤ length input.now) }
    ensures histories { let old = map (λ a. a.history) histories.old in
        map (λ a. a.history) histories.new
        ≡ build 2 (λ c. if ltb c count
        then analysis_after blocks.count subbands (get_or old c no_analysis) (pcm_in count c (blocks.count * subbands) input.now)
        else get_or old c no_analysis) }
    ensures samples { let old = map (λ a. a.history) histories.old in
        (c : ℕ) → c < count
        → rows_of result c
        ≡ samples_array blocks.count
        (analyze_blocks blocks.count subbands (get_or old c no_analysis) (pcm_in count c (blocks.count * subbands) input.now)) }
    ensures silent { (c : ℕ) → count ≤ c → c < 2 → rows_of result c ≡ no_samples }
{
    let mut samples = [Blocks {
        rows: [[0i32; 8]; 16],
    }; 2];
    for index in 0..count {
        let channel = PcmChannel { index, count };
        samples[index] = analyze_channel(
            &mut histories[index].history,
            input,
            blocks,
            subbands,
            channel,
        );
    }
    samples
}

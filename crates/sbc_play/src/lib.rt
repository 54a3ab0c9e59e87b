// The subband samples of a frame's channels to PCM, block by block through each channel's synthesis filterbank.
#![tactic(auto)]

ghost use Rattle.std.specs.Prelude.{◌≡◌, ◌++◌, ◌+◌, ◌*◌, ◌^◌, ◌≤◌, length, get_or, drop, pos};
ghost use Rattle.laws.specs.Integers.{Within};
ghost use Rattle.laws.specs.Lists.{build};
ghost use Rattle.sbc_parameters.specs.Sizes.{frame_samples};
ghost use Rattle.sbc_frame.specs.Channels.{interleave, no_synthesis, synthesized, synthesize, synthesize_blocks, synthesis_after};
ghost use Rattle.sbc_frame.specs.Arrays.{Small};
ghost use Rattle.sbc_play.specs.Playing.{blocks_in, channel_in, placed, histories_after};

use sbc_filterbank::{PcmChannel, Synthesis};
use sbc_frame::{BlockCount, Blocks, Samples};
use sbc_modulate::SynthesisBank;
use sbc_parameters::AcceptedSet;
use sbc_synthesize::synthesize_by;
use sbc_tables::{Bank, Eight, Four};

// A block's PCM into a channel's places.
// Kept: places computed from the block, the sample and the channel, since the samples of two channels alternate in PCM; and the output with
// its channel beside it, and what room it has, from here to `play_channel`: a struct of both would hold the loan, for these four alone.
fn put_block<B: Bank>(output: &mut [i16], pcm: &[i16; 8], block: usize, channel: PcmChannel)
    requires { (block + 1) * B.SUBBANDS * channel.count ≤ length output.old }
    ensures { output.new
        ≡ placed channel.count channel.index (block * B.SUBBANDS) B.SUBBANDS (λ j. get_or pcm.now j (pos 0)) output.old }
{
    let subbands = B::SUBBANDS;
    for j in 0..subbands {
        output[(block * subbands + j) * channel.count + channel.index] = pcm[j];
    }
}

// One block of a channel.
// Kept: that its samples are small, here and of the blocks in the two functions that call it: `Samples` says it of a frame, and each of
// these has a part of one.
fn play_block<B: SynthesisBank>(
    history: &mut Synthesis,
    samples: &[i32; 8],
    output: &mut [i16],
    block: usize,
    channel: PcmChannel,
)
    requires { ((block + 1) * B.SUBBANDS * channel.count ≤ length output.old) × (Within (2 ^ 28) samples.now) }
    ensures history { history.new ≡ synthesized B.SUBBANDS history.old (build B.SUBBANDS (λ s. get_or samples.now s (pos 0))) }
    ensures output { output.new
        ≡ placed channel.count channel.index (block * B.SUBBANDS) B.SUBBANDS
        (λ j. get_or (synthesize B.SUBBANDS history.old (build B.SUBBANDS (λ s. get_or samples.now s (pos 0)))) j (pos 0)) output.old }
{
    let pcm = synthesize_by::<B>(history, samples);
    put_block::<B>(output, &pcm, block, channel);
}

// All blocks of a channel, by one filterbank.
fn play_channel_by<B: SynthesisBank>(
    history: &mut Synthesis,
    samples: &Blocks,
    output: &mut [i16],
    blocks: BlockCount,
    channel: PcmChannel,
)
    requires { (blocks.count * B.SUBBANDS * channel.count ≤ length output.old) × (Small blocks.count (2 ^ 28) samples.now.rows) }
    ensures history { history.new ≡ synthesis_after B.SUBBANDS history.old (blocks_in blocks.count B.SUBBANDS samples.now.rows) }
    ensures output { output.new
        ≡ placed channel.count channel.index 0 (blocks.count * B.SUBBANDS)
        (λ j. get_or (synthesize_blocks B.SUBBANDS history.old (blocks_in blocks.count B.SUBBANDS samples.now.rows)) j (pos 0)) output.old }
{
    for block in 0..blocks.count {
        play_block::<B>(history, &samples.rows[block], output, block, channel);
    }
}

// All blocks of a channel.
fn play_channel(
    accepted: AcceptedSet,
    history: &mut Synthesis,
    samples: &Blocks,
    output: &mut [i16],
    channel: PcmChannel,
)
    requires { let p = accepted.set in
        (p.blocks * p.subbands * channel.count ≤ length output.old) × (Small p.blocks (2 ^ 28) samples.now.rows) }
    ensures history { let p = accepted.set in
        history.new ≡ synthesis_after p.subbands history.old (blocks_in p.blocks p.subbands samples.now.rows) }
    ensures output { let p = accepted.set in
        output.new
        ≡ placed channel.count channel.index 0 (p.blocks * p.subbands)
        (λ j. get_or (synthesize_blocks p.subbands history.old (blocks_in p.blocks p.subbands samples.now.rows)) j (pos 0)) output.old }
{
    let blocks = BlockCount::from(accepted);
    // Kept: one branch picks the type, since the number of subbands is known only as the program runs; it stands once a call.
    if accepted.set.subbands == 4 {
        play_channel_by::<Four>(history, samples, output, blocks, channel);
    } else {
        play_channel_by::<Eight>(history, samples, output, blocks, channel);
    }
}

// All channels of a frame. A history of a channel that the frame does not have stays as it is.
// Kept: that the output has room for a frame, in three contracts, here, of `decode_frame` and of the decoder's `play`; no plainer
// otherwise: a struct that held the loan would be made by the first and taken apart here, with nothing to do between.
pub fn play_frame(histories: &mut [Synthesis; 2], samples: &Samples, output: &mut [i16])
    requires { frame_samples samples.now.accepted.set ≤ length output.old }
    ensures histories { histories.new ≡ histories_after samples.now.accepted.set histories.old samples.now.channels }
    ensures output { let p = samples.now.accepted.set in
        output.new
        ≡ interleave p (λ c. synthesize_blocks p.subbands (get_or histories.old c no_synthesis) (channel_in p samples.now.channels c))
        ++ drop (frame_samples p) output.old }
{
    let count = usize::from(samples.accepted.set.channels());
    for index in 0..count {
        let channel = PcmChannel { index, count };
        play_channel(
            samples.accepted,
            &mut histories[index],
            &samples.channels[index],
            output,
            channel,
        );
    }
}

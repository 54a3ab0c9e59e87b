// One frame of an SBC stream, decoded; and what is dropped of its samples after a seek.
#![tactic(auto)]

ghost use Rattle.std.specs.Prelude.{◌≡◌, ◌++◌, ◌-◌, ◌≤◌, length, take, drop};
ghost use Rattle.sbc_parameters.specs.Sizes.{frame_samples};
ghost use Rattle.sbc_frame.specs.Layout.{unpack};
ghost use Rattle.sbc_frame.specs.Decoding.{decode_fields, synthesis_histories};

use sbc_filterbank::Synthesis;
use sbc_frame::FrameBytes;
use sbc_play::play_frame;
use sbc_read::read_frame;

// A frame's PCM into the first places of the output; the histories become those after it. The checksum is the caller's.
pub fn decode_frame(histories: &mut [Synthesis; 2], frame: FrameBytes, output: &mut [i16])
    requires { frame_samples frame.accepted.set ≤ length output.old }
    ensures histories { let p = frame.entry.accepted.set in
        histories.new ≡ synthesis_histories p histories.old (unpack p frame.entry.bytes.now) }
    ensures output { let p = frame.entry.accepted.set in
        output.new ≡ decode_fields p histories.old (unpack p frame.entry.bytes.now) ++ drop (frame_samples p) output.old }
{
    let samples = read_frame(frame);
    play_frame(histories, &samples, output);
}

// Leaves out the first samples of a frame's: the others move to the front, and the places behind them keep what they held.
// Kept: how many samples a frame has beside the output, which is the caller's whole rest: of a part, the decoder's `play` would have to say
// what stands behind it.
pub fn leave_out(output: &mut [i16], gone: usize, samples: usize)
    requires { (gone ≤ samples) × (samples ≤ length output.old) }
    ensures { output.new ≡ take (samples - gone) (drop gone output.old) ++ drop (samples - gone) output.old }
{
    if gone != 0 {
        output.copy_within(gone..samples, 0);
    }
}

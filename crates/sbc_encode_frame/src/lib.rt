// One frame of an SBC stream, encoded.
#![tactic(auto)]

ghost use Rattle.std.specs.Prelude.{◌≡◌, map, ◌≤◌, length};
ghost use Rattle.sbc_parameters.specs.Sizes.{frame_length, frame_samples};
ghost use Rattle.sbc_frame.specs.Layout.{pack};
ghost use Rattle.sbc_frame.specs.Encoding.{encode_fields, analysis_histories};

use sbc_analyze_frame::analyze_channels;
use sbc_code::code;
use sbc_filterbank::Analysis;
use sbc_frame::BlockCount;
use sbc_parameters::AcceptedSet;
use sbc_write_frame::write_frame;

// One frame from PCM. The histories of the channels that there are are altered where the caller has them.
// Kept: that the input has a frame's samples and the output a frame's bytes, here, in `analyze_channels`, `write_frame` and the encoder's
// loop: what is lent is cut to a frame there, and a struct with the loan would be made for each frame and taken apart here.
pub fn encode_frame(
    accepted: AcceptedSet,
    histories: &mut [Analysis; 2],
    input: &[i16],
    frame: &mut [u8],
)
    requires { (frame_samples accepted.set ≤ length input.now) × (length frame.old ≡ frame_length accepted.set) }
    ensures histories { map (λ a. a.history) histories.new
        ≡ analysis_histories accepted.set (map (λ a. a.history) histories.old) input.now }
    ensures frame { frame.new ≡ pack accepted.set (encode_fields accepted.set (map (λ a. a.history) histories.old) input.now) }
{
    let set = accepted.set;
    let samples = analyze_channels(
        histories,
        input,
        BlockCount::from(accepted),
        usize::from(set.subbands),
        usize::from(set.channels()),
    );
    let coding = code(accepted, &samples);
    write_frame(accepted, frame, &coding);
}

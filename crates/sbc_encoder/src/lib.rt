// The SBC and mSBC encoder: its state, and the calls that alter it where the caller has it. Their definitions stand in specs/.
#![tactic(auto)]

ghost use Rattle.std.specs.Prelude.{◌≡◌, ◌++◌, ◌*◌, ◌≤◌, length, drop};
ghost use Rattle.codec.specs.Answers.{told};
ghost use Rattle.sbc_parameters.specs.Sizes.{frame_length, frame_samples};
ghost use Rattle.sbc_encoder.specs.Told.{told_encoded, encoder_with};
ghost use Rattle.sbc_encoder.specs.Encode.{encoder_of, new_encoder, reset_encoder, encoder_after, encoded_frames, pack_all, encode};

use codec::{Error, Progress};
use sbc_encode_frame::encode_frame;
pub use sbc_filterbank::Analysis;
use sbc_parameters::{AcceptedSet, SbcParameters};

// An SBC and mSBC encoder.
#[derive(Clone, Copy)]
pub struct SbcEncoder {
    pub parameters: SbcParameters,
    // By channel.
    pub analysis: [Analysis; 2],
}

impl SbcEncoder {
    // An encoder with silence in both channels: InvalidParameter where the parameters are not accepted.
    #[tactic(auto, unfolding(crate::specs::Encode::new_encoder))]
    pub fn new(parameters: SbcParameters) -> Result<SbcEncoder, Error>
        ensures { told result ≡ new_encoder parameters }
    {
        AcceptedSet::try_from(parameters)?;
        Ok(SbcEncoder::silent(parameters))
    }

    // An encoder of any parameters, with silence in both channels. One whose parameters are not accepted answers every encode call with
    // InvalidParameter.
    #[tactic(auto, unfolding(crate::specs::Encode::encoder_of, sbc_frame::specs::Channels::no_analysis))]
    pub fn silent(parameters: SbcParameters) -> SbcEncoder
        ensures { result ≡ encoder_of parameters }
    {
        let silence = Analysis {
            history: [0i16; 80],
        };
        SbcEncoder {
            parameters,
            analysis: [silence; 2],
        }
    }

    pub fn parameters(&self) -> SbcParameters
        ensures { result ≡ self.now.parameters }
    {
        self.parameters
    }

    // Silence again; the parameters stay.
    #[tactic(auto, unfolding(crate::specs::Encode::reset_encoder))]
    pub fn reset(&mut self)
        ensures { self.new ≡ reset_encoder self.old }
    {
        *self = SbcEncoder::silent(self.parameters);
    }

    // Encodes as many frames as both buffers hold. An output under one frame is BufferTooSmall, even with no input.
    #[tactic(auto, using(crate::proofs::Writing::refusing))]
    pub fn encode(&mut self, input: &[i16], output: &mut [u8]) -> Result<Progress, Error>
        ensures { told_encoded result self.new output.new ≡ encode self.old input.now output.old }
    {
        let accepted = AcceptedSet::try_from(self.parameters)?;
        let samples = accepted.set.frame_samples();
        let length = accepted.set.frame_length();
        if output.len() < length {
            return Err(Error::BufferTooSmall);
        }
        let count = (input.len() / samples).min(output.len() / length);
        encode_frames(accepted, &mut self.analysis, input, output, count);
        Ok(Progress {
            consumed: count * samples,
            produced: count * length,
        })
    }
}

// So many frames, one after the other. The histories are altered where the caller has them.
// Kept: `for (i, frame) in output.chunks_exact_mut(length).take(count).enumerate()` leaves the goal `returns-clause-output` open: when the
// chunks' borrow is over, a proof knows how long the output is, and not what is in it. The input of a frame is the whole rest, as the
// definition of the encoder says, so that it needs the number too.
fn encode_frames(
    accepted: AcceptedSet,
    histories: &mut [Analysis; 2],
    input: &[i16],
    output: &mut [u8],
    count: usize,
)
    requires { (count * frame_samples accepted.set ≤ length input.now) × (count * frame_length accepted.set ≤ length output.old) }
    ensures encoder { let p = accepted.set in
        encoder_with p histories.new ≡ encoder_after count (encoder_with p histories.old) input.now }
    ensures output { let p = accepted.set in let first = encoder_with p histories.old in
        output.new ≡ pack_all p (encoded_frames count first input.now) ++ drop (count * frame_length p) output.old }
{
    let samples = accepted.set.frame_samples();
    let length = accepted.set.frame_length();
    for i in 0..count {
        encode_frame(
            accepted,
            histories,
            &input[i * samples..],
            &mut output[i * length..(i + 1) * length],
        );
    }
}

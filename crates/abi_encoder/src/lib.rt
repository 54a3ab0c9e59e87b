// An encoder as a struct of numbers, and the encoder's calls on it, which `sbc_abi` exports. Their definitions stand in specs/.
#![tactic(auto)]

ghost use Rattle.std.specs.Prelude.{◌≡◌, if◌then◌else◌, None, Some};
ghost use Rattle.abi_numbers.specs.Numbers.{is_set};
ghost use Rattle.abi_encoder.specs.Encoder.{encoder_in, state_of, encode_state, create_state, reset_state};

use abi_numbers::{CodedNumbers, ParameterNumbers};
use codec::Error;
use sbc_encoder::{Analysis, SbcEncoder};
use sbc_parameters::SbcParameters;

// An encoder.
// Kept: C names these fields, in this order (`sbc.h`), the two channels side by side. An array of two would lie in memory
// as they do, but C has no such field.
#[repr(C)]
#[derive(Clone, Copy)]
pub struct EncoderState {
    // The last samples of each channel, newest first.
    pub left: [i16; 80],
    pub right: [i16; 80],
    pub parameters: ParameterNumbers,
}

// The state of an encoder.
impl From<&SbcEncoder> for EncoderState {
    ghost from_gives = { λ encoder state. state ≡ state_of encoder.now };

    #[tactic(auto, unfolding(crate::specs::Encoder::state_of))]
    fn from(encoder: &SbcEncoder) -> EncoderState {
        let [first, second] = encoder.analysis;
        let left = first.history;
        let right = second.history;
        EncoderState {
            left,
            right,
            parameters: ParameterNumbers::from(encoder.parameters),
        }
    }
}

impl EncoderState {
    // The encoder that the numbers stand for, where they stand for one.
    // Kept: an Option and no TryFrom, as a decoder's: `reset` stays silent where there is no encoder, and has no use for a refusal.
    #[tactic(auto, unfolding(crate::specs::Encoder::encoder_in))]
    fn encoder(&self) -> Option<SbcEncoder>
        ensures { result ≡ (if is_set self.now.parameters then Some (encoder_in self.now) else None) }
    {
        let parameters = SbcParameters::try_from(self.parameters).ok()?;
        let left = self.left;
        let right = self.right;
        Some(SbcEncoder {
            parameters,
            analysis: [Analysis { history: left }, Analysis { history: right }],
        })
    }

    // Makes a new encoder with these parameters, with silence in both channels: 0, or the refusal's number where they are
    // not accepted, and the state stays.
    // Kept: a number and no Result, since it goes to C as it is.
    #[tactic(auto, unfolding(crate::specs::Encoder::create_state))]
    pub fn create(&mut self, parameters: ParameterNumbers) -> u8
        ensures { record { refusal = result; state = self.new } ≡ create_state self.old parameters }
    {
        let Some(accepted) = parameters.accepted() else {
            return u8::from(Error::InvalidParameter);
        };
        *self = EncoderState::from(&SbcEncoder::silent(accepted.set));
        0
    }

    // Silence again; a state that stands for no encoder stays.
    #[tactic(auto, unfolding(crate::specs::Encoder::reset_state))]
    pub fn reset(&mut self)
        ensures { self.new ≡ reset_state self.old }
    {
        let Some(mut encoder) = self.encoder() else {
            return;
        };
        encoder.reset();
        *self = EncoderState::from(&encoder);
    }

    // Encodes as many frames as both buffers hold; a state that stands for no encoder is refused, and stays.
    // Kept: the encoder is made, called and stored here and in `reset`; a function that took the call, as abi_decoder has for
    // its four calls, would be longer than these two.
    #[tactic(auto, unfolding(crate::specs::Encoder::encode_state, crate::specs::Encoder::after_encode))]
    pub fn encode(&mut self, input: &[i16], output: &mut [u8]) -> CodedNumbers
        ensures { record { answer = result; state = self.new; output = output.new } ≡ encode_state self.old input.now output.old }
    {
        let Some(mut encoder) = self.encoder() else {
            return CodedNumbers::from(Err(Error::InvalidParameter));
        };
        let answer = encoder.encode(input, output);
        *self = EncoderState::from(&encoder);
        CodedNumbers::from(answer)
    }
}

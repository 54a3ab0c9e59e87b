// The encoder's calls on a state that is lent. Each is thin: a method of `abi_encoder` does the work.
ghost use Rattle.std.specs.Prelude.{◌≡◌};
ghost use Rattle.abi_encoder.specs.Encoder.{encode_state, create_state, reset_state};

use abi_encoder::EncoderState;
use abi_numbers::{CodedNumbers, ParameterNumbers};

// Makes a new encoder, with silence in both channels: 0, or 3 where the parameters are not accepted.
// Kept: a number and no Result: C gets the refusal's number.
#[unsafe(no_mangle)]
pub extern "C" fn sbc_encoder_new(encoder: &mut EncoderState, parameters: ParameterNumbers) -> u8
    ensures { record { refusal = result; state = encoder.new } ≡ create_state encoder.old parameters }
{
    encoder.create(parameters)
}

// Silence again; the parameters stay.
#[unsafe(no_mangle)]
pub extern "C" fn sbc_encoder_reset(encoder: &mut EncoderState)
    ensures { encoder.new ≡ reset_state encoder.old }
{
    encoder.reset();
}

// Encodes as many frames as both buffers hold.
#[unsafe(no_mangle)]
pub extern "C" fn sbc_encoder_encode(
    encoder: &mut EncoderState,
    input: &[i16],
    output: &mut [u8],
) -> CodedNumbers
    ensures { record { answer = result; state = encoder.new; output = output.new } ≡ encode_state encoder.old input.now output.old }
{
    encoder.encode(input, output)
}

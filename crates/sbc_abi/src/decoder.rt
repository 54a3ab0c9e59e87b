// The decoder's calls on a state that is lent. Each is thin: a method of `abi_decoder` does the work.
ghost use Rattle.std.specs.Prelude.{◌≡◌};
ghost use Rattle.sbc_decoder.specs.Decode.{new_decoder};
ghost use Rattle.abi_decoder.specs.Decoder.{state_of, decode_state, seek_state, reset_state, finish_state};

use abi_decoder::{DecoderState, SeekNumbers};
use abi_numbers::CodedNumbers;

// Makes a new decoder, whatever stood there.
#[unsafe(no_mangle)]
pub extern "C" fn sbc_decoder_new(decoder: &mut DecoderState)
    ensures { decoder.new ≡ state_of new_decoder }
{
    *decoder = DecoderState::new();
}

// Makes the decoder as created.
#[unsafe(no_mangle)]
pub extern "C" fn sbc_decoder_reset(decoder: &mut DecoderState)
    ensures { decoder.new ≡ reset_state decoder.old }
{
    decoder.reset();
}

// Says that the input has ended.
#[unsafe(no_mangle)]
pub extern "C" fn sbc_decoder_finish(decoder: &mut DecoderState)
    ensures { decoder.new ≡ finish_state decoder.old }
{
    decoder.finish();
}

// Decodes frames until no whole one is left, or one is refused.
#[unsafe(no_mangle)]
pub extern "C" fn sbc_decoder_decode(
    decoder: &mut DecoderState,
    input: &[u8],
    output: &mut [i16],
) -> CodedNumbers
    ensures { record { answer = result; state = decoder.new; output = output.new } ≡ decode_state decoder.old input.now output.old }
{
    decoder.decode(input, output)
}

// Seeks to a position, counted in samples of one channel from the start of the audio.
#[unsafe(no_mangle)]
pub extern "C" fn sbc_decoder_seek(decoder: &mut DecoderState, position: u64) -> SeekNumbers
    ensures { record { answer = result; state = decoder.new } ≡ seek_state decoder.old position }
{
    decoder.seek(position)
}

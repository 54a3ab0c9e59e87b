// A decoder as a struct of numbers, and the decoder's calls on it, which `sbc_abi` exports. Their definitions stand in specs/.
#![tactic(auto)]

ghost use Rattle.std.specs.Prelude.{◌≡◌, if◌then◌else◌, None, Some, true, false, IfSome, IfNone};
ghost use Rattle.std.specs.Fn.{CalledAtMut};
ghost use Rattle.sbc_decoder.specs.declared.SbcDecoder.{SbcDecoder};
ghost use Rattle.codec.specs.Answers.{told};
ghost use Rattle.sbc_decoder.specs.Decode.{new_decoder};
ghost use Rattle.abi_decoder.specs.Decoder.{is_decoder, decoder_in, state_of};
ghost use Rattle.abi_decoder.specs.Decoder.{seek_numbers, decode_state, seek_state, reset_state, finish_state};

use abi_numbers::{CodedNumbers, ParameterNumbers};
use codec::Error;
use sbc_decoder::SbcDecoder;
use sbc_filterbank::Synthesis;
use sbc_parameters::SbcParameters;
use sbc_seek::SeekRequest;

// A decoder. All zeros are a new one.
// Kept: C names these fields, in this order (`sbc.h`): the two channels side by side, numbers for tests, and the last
// parameters as a flag with numbers beside it, since no enum may cross. An array of two would lie in memory as the two
// channels do, but C has no such field.
#[repr(C)]
#[derive(Clone, Copy)]
pub struct DecoderState {
    // Of each channel the last ten vectors of the synthesis, in a ring, and the slot of the newest.
    pub left: [i32; 160],
    pub right: [i32; 160],
    pub left_newest: usize,
    pub right_newest: usize,
    // Samples of each channel still to be dropped.
    pub skip: usize,
    // The parameters of the last accepted frame, or zeros.
    pub parameters: ParameterNumbers,
    // 1 where there was such a frame, else 0.
    pub has_parameters: u8,
    // 1 where the input is said to have ended, else 0.
    pub finishing: u8,
}

// What a seek gives back: 0 and where to go on, or the refusal's number and zeros.
#[repr(C)]
#[derive(Clone, Copy, Debug, PartialEq, Eq)]
pub struct SeekNumbers {
    pub byte_offset: u64,
    pub skip_frames: u32,
    pub refusal: u8,
}

// The state of a decoder.
impl From<&SbcDecoder> for DecoderState {
    ghost from_gives = { λ decoder state. state ≡ state_of decoder.now };

    #[tactic(auto, unfolding(crate::specs::Decoder::state_of, abi_numbers::specs::Numbers::no_numbers))]
    fn from(decoder: &SbcDecoder) -> DecoderState {
        let [first, second] = decoder.synthesis;
        let left = first.values;
        let right = second.values;
        let last = decoder.parameters;
        DecoderState {
            left,
            right,
            left_newest: first.newest,
            right_newest: second.newest,
            skip: decoder.skip,
            parameters: last.map_or(ParameterNumbers::NONE, ParameterNumbers::from),
            has_parameters: u8::from(last.is_some()),
            finishing: u8::from(decoder.finishing),
        }
    }
}

// The numbers of what a seek answers.
// Kept: as the two in abi_numbers, it fills a struct of its own.
impl From<Result<SeekRequest, Error>> for SeekNumbers {
    ghost from_gives = { λ answer numbers. numbers ≡ seek_numbers (told answer) };

    #[tactic(auto, unfolding(crate::specs::Decoder::seek_numbers))]
    fn from(answer: Result<SeekRequest, Error>) -> SeekNumbers {
        match answer {
            Ok(request) => SeekNumbers {
                byte_offset: request.byte_offset,
                skip_frames: request.skip_frames,
                refusal: 0,
            },
            Err(error) => SeekNumbers {
                byte_offset: 0,
                skip_frames: 0,
                refusal: u8::from(error),
            },
        }
    }
}

// ---- the calls

impl DecoderState {
    // A state as created.
    pub fn new() -> DecoderState
        ensures { result ≡ state_of new_decoder }
    {
        DecoderState::from(&SbcDecoder::new())
    }

    // The decoder that the numbers stand for, where they stand for one.
    // Kept: an Option and no TryFrom: `reset` and `finish` stay silent where there is no decoder, so that a refusal made here
    // would be dropped by these two, and the other two would take a Result out of a Result.
    // Kept: the test of 1 is a guard, as that of 0, and all refusals are in the last arm; `SbcParameters::try_from(..).ok()?` in
    // that arm proves too, and is no plainer: it would refuse by itself, and not all refusals would stand in the last.
    #[tactic(auto, using(crate::proofs::Decoding::blanks), unfolding(crate::specs::Decoder::is_decoder, crate::specs::Decoder::decoder_in))]
    fn decoder(&self) -> Option<SbcDecoder>
        ensures { result ≡ (if is_decoder self.now then Some (decoder_in self.now) else None) }
    {
        let parameters = match self.has_parameters {
            0 if self.parameters == ParameterNumbers::NONE => None,
            1 if self.parameters.is_set() => Some(self.parameters.parameters()),
            _ => return None,
        };
        let finishing = match self.finishing {
            0 => false,
            1 => true,
            _ => return None,
        };
        let left = Synthesis {
            values: self.left,
            newest: self.left_newest,
        };
        let right = Synthesis {
            values: self.right,
            newest: self.right_newest,
        };
        Some(SbcDecoder {
            parameters,
            synthesis: [left, right],
            finishing,
            skip: self.skip,
        })
    }

    // Makes a call on the decoder that the numbers stand for, and keeps the decoder that it leaves; where they stand for
    // none, no call is made, and the state stays. The call is lent and not handed over, so that what it wrote to a buffer
    // that it holds is known here.
    fn on_decoder<R, F: FnMut(&mut SbcDecoder) -> R>(&mut self, call: &mut F) -> Option<R>
        requires { F.IsAlwaysCallable call.old }
        ensures none { IfNone result ((is_decoder self.old ≡ false) × (self.new ≡ self.old) × (call.new ≡ call.old)) }
        ensures some { IfSome result (λ answer. (after : SbcDecoder) × (is_decoder self.old ≡ true) × (self.new ≡ state_of after)
            × CalledAtMut F.FnMut call.old (decoder_in self.old) answer call.new after) }
    {
        let mut decoder = self.decoder()?;
        let answer = call(&mut decoder);
        *self = DecoderState::from(&decoder);
        Some(answer)
    }

    // Makes the decoder as created; a state that stands for no decoder stays.
    #[tactic(auto, unfolding(crate::specs::Decoder::reset_state))]
    pub fn reset(&mut self)
        ensures { self.new ≡ reset_state self.old }
    {
        self.on_decoder(&mut SbcDecoder::reset);
    }

    // Says that the input has ended; a state that stands for no decoder stays.
    #[tactic(auto, unfolding(crate::specs::Decoder::finish_state))]
    pub fn finish(&mut self)
        ensures { self.new ≡ finish_state self.old }
    {
        self.on_decoder(&mut SbcDecoder::finish);
    }

    // Decodes frames until no whole one is left, or one is refused; a state that stands for no decoder is refused, and stays.
    #[tactic(auto, unfolding(crate::specs::Decoder::decode_state, crate::specs::Decoder::after_decode))]
    pub fn decode(&mut self, input: &[u8], output: &mut [i16]) -> CodedNumbers
        ensures { record { answer = result; state = self.new; output = output.new } ≡ decode_state self.old input.now output.old }
    {
        let mut call = |decoder: &mut SbcDecoder| decoder.decode(input, output);
        let answer = self.on_decoder(&mut call);
        CodedNumbers::from(answer.unwrap_or(Err(Error::InvalidParameter)))
    }

    // Seeks to a position, counted in samples of one channel from the start of the audio; a state that stands for no
    // decoder is refused, and stays.
    #[tactic(auto, unfolding(crate::specs::Decoder::seek_state, crate::specs::Decoder::after_seek))]
    pub fn seek(&mut self, position: u64) -> SeekNumbers
        ensures { record { answer = result; state = self.new } ≡ seek_state self.old position }
    {
        let answer = self.on_decoder(&mut |decoder| decoder.seek(position));
        SeekNumbers::from(answer.unwrap_or(Err(Error::InvalidParameter)))
    }
}

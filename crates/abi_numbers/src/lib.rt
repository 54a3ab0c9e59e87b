// The numbers that cross to C, and what they stand for: parameters, and what a call gives back. No enum may cross, so the
// mode, the allocation and a refusal are numbers here; numbers that stand for nothing are not accepted.
#![tactic(auto)]

ghost use Rattle.std.specs.Prelude.{◌≡◌, true, false, IfSome, IfNone, IfOk, IfErr};
ghost use Rattle.sbc_parameters.specs.Sizes.{frame_length, frame_samples};
ghost use Rattle.codec.specs.Answers.{told};
ghost use Rattle.codec.specs.declared.Error.TheVariants.{InvalidParameter};
ghost use Rattle.abi_numbers.specs.Numbers.{is_set, parameters_in, numbers_of, no_numbers, is_accepted, size_in};
ghost use Rattle.abi_numbers.specs.Numbers.{parsed_numbers, coded_numbers};

use codec::{Error, Progress};
use sbc_modes::{SbcAllocation, SbcChannelMode};
use sbc_parameters::{AcceptedSet, SbcParameters};

// The parameters of a stream: the mode and the allocation by their numbers in the header.
// Kept: the two are numbers here and no enums, since no enum may cross to C; `SbcParameters` has the enums.
#[repr(C)]
#[derive(Clone, Copy, Debug, PartialEq, Eq)]
pub struct ParameterNumbers {
    pub sample_rate: u32,
    // 0 mono, 1 dual channel, 2 stereo, 3 joint stereo.
    pub channel_mode: u8,
    // 0 loudness, 1 SNR.
    pub allocation: u8,
    pub blocks: u8,
    pub subbands: u8,
    pub bitpool: u8,
}

// What a decode or encode call gives back: 0 and how much was consumed and produced, or the refusal's number and zeros.
// Kept: no enum may cross to C, so that a refusal is a number beside zeros, here and in what a look at a header and a seek give back.
#[repr(C)]
#[derive(Clone, Copy, Debug, PartialEq, Eq)]
pub struct CodedNumbers {
    pub consumed: usize,
    pub produced: usize,
    pub refusal: u8,
}

// What a look at a header gives back: 0 and its parameters, or the refusal's number and zeros.
#[repr(C)]
#[derive(Clone, Copy, Debug, PartialEq, Eq)]
pub struct ParsedNumbers {
    pub parameters: ParameterNumbers,
    pub refusal: u8,
}

impl ParameterNumbers {
    // In the place of parameters where there are none.
    // Kept: no Option, which C doesn't have: zeros are what C reads there.
    pub const NONE: ParameterNumbers = ParameterNumbers {
        sample_rate: 0,
        channel_mode: 0,
        allocation: 0,
        blocks: 0,
        subbands: 0,
        bitpool: 0,
    };

    // The constant has no contract of its own: this one says which definition it is.
    #[tactic(auto, unfolding(crate::specs::Numbers::no_numbers))]
    pub fn none() -> ParameterNumbers
        ensures { result ≡ no_numbers }
    {
        ParameterNumbers::NONE
    }

    // Whether the mode and the allocation are numbers of one.
    #[tactic(auto, unfolding(crate::specs::Numbers::is_set))]
    pub fn is_set(self) -> bool
        ensures { result ≡ is_set self }
    {
        self.channel_mode < 4 && self.allocation < 2
    }

    // The parameters that the numbers stand for.
    // Kept: beside the TryFrom below, which refuses numbers that stand for none: this one is public and could not fail. No
    // From, as at a mode's number (sbc_modes): numbers that are none of a mode give one too.
    #[tactic(auto, unfolding(crate::specs::Numbers::parameters_in))]
    pub fn parameters(self) -> SbcParameters
        ensures { result ≡ parameters_in self }
    {
        SbcParameters {
            sample_rate: self.sample_rate,
            channel_mode: SbcChannelMode::from_number(self.channel_mode),
            allocation: SbcAllocation::from_number(self.allocation),
            blocks: self.blocks,
            subbands: self.subbands,
            bitpool: self.bitpool,
        }
    }

    // Whether the numbers stand for accepted parameters.
    #[tactic(auto, unfolding(crate::specs::Numbers::is_accepted))]
    pub fn is_accepted(self) -> bool
        ensures { result ≡ is_accepted self }
    {
        self.accepted().is_some()
    }

    // The parameters that the numbers stand for, where they are accepted.
    #[tactic(auto, unfolding(crate::specs::Numbers::is_accepted))]
    pub fn accepted(self) -> Option<AcceptedSet>
        ensures some { IfSome result (λ taken. (is_accepted self ≡ true) × (taken.set ≡ parameters_in self)) }
        ensures none { IfNone result (is_accepted self ≡ false) }
    {
        let set = SbcParameters::try_from(self).ok()?;
        AcceptedSet::try_from(set).ok()
    }

    // The bytes of a frame; 0 where the parameters are not accepted.
    // Kept: this and `frame_samples` are twins, and 0 stands for none, since C gets a number and no Option; each is one line.
    #[tactic(auto, unfolding(crate::specs::Numbers::size_in))]
    pub fn frame_length(self) -> usize
        ensures { result ≡ size_in frame_length self }
    {
        self.accepted().map_or(0, |taken| taken.set.frame_length())
    }

    // The samples of a frame, all channels together; 0 where the parameters are not accepted.
    #[tactic(auto, unfolding(crate::specs::Numbers::size_in))]
    pub fn frame_samples(self) -> usize
        ensures { result ≡ size_in frame_samples self }
    {
        self.accepted().map_or(0, |taken| taken.set.frame_samples())
    }
}

// The parameters that the numbers stand for, where the mode and the allocation are numbers of one.
impl TryFrom<ParameterNumbers> for SbcParameters {
    type Error = Error;

    ghost try_from_gives = { λ n r. IfOk r (λ set. (is_set n ≡ true) × (set ≡ parameters_in n))
        × IfErr r (λ error. (error ≡ InvalidParameter) × (is_set n ≡ false)) };

    fn try_from(numbers: ParameterNumbers) -> Result<SbcParameters, Error> {
        if numbers.is_set() {
            return Ok(numbers.parameters());
        }
        Err(Error::InvalidParameter)
    }
}

// The numbers of parameters.
impl From<SbcParameters> for ParameterNumbers {
    ghost from_gives = { λ p n. n ≡ numbers_of p };

    #[tactic(auto, unfolding(crate::specs::Numbers::numbers_of))]
    fn from(parameters: SbcParameters) -> ParameterNumbers {
        ParameterNumbers {
            sample_rate: parameters.sample_rate,
            channel_mode: u8::from(parameters.channel_mode),
            allocation: u8::from(parameters.allocation),
            blocks: parameters.blocks,
            subbands: parameters.subbands,
            bitpool: parameters.bitpool,
        }
    }
}

// The numbers of what a decode or encode call answers.
// Kept: this, the next one and the one of a seek (abi_decoder) each fill another struct, field by field; one for all three
// would take both arms from its caller, and is no plainer.
impl From<Result<Progress, Error>> for CodedNumbers {
    ghost from_gives = { λ answer numbers. numbers ≡ coded_numbers (told answer) };

    #[tactic(auto, unfolding(crate::specs::Numbers::coded_numbers))]
    fn from(answer: Result<Progress, Error>) -> CodedNumbers {
        match answer {
            Ok(progress) => CodedNumbers {
                consumed: progress.consumed,
                produced: progress.produced,
                refusal: 0,
            },
            Err(error) => CodedNumbers {
                consumed: 0,
                produced: 0,
                refusal: u8::from(error),
            },
        }
    }
}

// The numbers of what a look at a header answers.
impl From<Result<SbcParameters, Error>> for ParsedNumbers {
    ghost from_gives = { λ answer numbers. numbers ≡ parsed_numbers (told answer) };

    #[tactic(auto, unfolding(crate::specs::Numbers::parsed_numbers, crate::specs::Numbers::no_numbers))]
    fn from(answer: Result<SbcParameters, Error>) -> ParsedNumbers {
        match answer {
            Ok(parameters) => ParsedNumbers {
                parameters: ParameterNumbers::from(parameters),
                refusal: 0,
            },
            Err(error) => ParsedNumbers {
                parameters: ParameterNumbers::NONE,
                refusal: u8::from(error),
            },
        }
    }
}

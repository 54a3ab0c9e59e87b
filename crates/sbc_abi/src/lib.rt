// The codec for C and Rust, as a static library (`rt lib` in crates/sbc_abi): the calls of the decoder, of the encoder and
// on parameters, on numbers, slices and structs of numbers. include/sbc.h declares them for C, and include/sbc.rs has safe
// calls over them for Rust.
//
// No enum may cross to C, so a state is a struct of the numbers that stand for it (`abi_decoder`, `abi_encoder`). The caller
// owns it and lends it by pointer. Each contract is one equation, with the definitions of the calls, and none has a
// `requires`: numbers that stand for nothing get refusal 3.
//
// What this boundary assumes of a caller, and nothing checks: x86-64 and System V's C calling convention, a slice passed as
// a pointer and then its length in elements; each pointer is not null, is aligned as its type is and points to as many
// elements as the length says (one to no elements too is not null and aligned), under 2^63 bytes; what is lent to be written
// overlaps nothing else that the call is lent; during the call no other thread and no signal handler writes what is lent, or
// reads what is lent to be written; what is read is initialised. Padding in a struct has no meaning and is not kept.
//
// Kept: here and in the two files each call is a function with a C name, and no method: C has nothing else. Each is one line.
#![tactic(auto)]

mod decoder;
mod encoder;

ghost use Rattle.std.specs.Prelude.{◌≡◌};
ghost use Rattle.sbc_parameters.specs.Header.{parse};
ghost use Rattle.sbc_parameters.specs.Sizes.{frame_length, frame_samples};
ghost use Rattle.abi_numbers.specs.Numbers.{parsed_numbers, size_in};

use abi_numbers::{ParameterNumbers, ParsedNumbers};
use sbc_parameters::SbcParameters;

// Reads the parameters from the first bytes of a frame.
#[unsafe(no_mangle)]
pub extern "C" fn sbc_parameters_parse(header: &[u8]) -> ParsedNumbers
    ensures { result ≡ parsed_numbers (parse header.now) }
{
    ParsedNumbers::from(SbcParameters::parse(header))
}

// The bytes of a frame; 0 where the parameters are not accepted.
#[unsafe(no_mangle)]
pub extern "C" fn sbc_parameters_frame_length(parameters: ParameterNumbers) -> usize
    ensures { result ≡ size_in frame_length parameters }
{
    parameters.frame_length()
}

// The samples of a frame, all channels together; 0 where the parameters are not accepted.
#[unsafe(no_mangle)]
pub extern "C" fn sbc_parameters_frame_samples(parameters: ParameterNumbers) -> usize
    ensures { result ≡ size_in frame_samples parameters }
{
    parameters.frame_samples()
}

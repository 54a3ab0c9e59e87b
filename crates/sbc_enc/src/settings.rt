// The encoder's parameters, from the program's arguments.
use codec::Error;
use sbc_modes::{SbcAllocation, SbcChannelMode};
use sbc_parameters::SbcParameters;
use std::env::{Env, FillError};
use std::num::ParseIntError;
use std::str;
use std::str::FromStr;

// The bytes of the longest word that a setting may have.
const LONGEST: usize = 16;

// Word i of the arguments, read into the space: none where there are fewer. One that is no text, or too long, is no setting.
//
// Kept: `env::args` takes memory, and would refuse a program's name that is no text, too; this program takes any name.
fn word_at<'a>(
    rt: &impl Env,
    i: usize,
    space: &'a mut [u8; LONGEST],
) -> Result<Option<&'a str>, Error> {
    match rt.arg(i, space) {
        Ok(count) => {
            let word = str::from_utf8(&space[..count]).map_err(|_| Error::InvalidParameter)?;
            Ok(Some(word))
        }
        Err(FillError::TooLong) => Err(Error::InvalidParameter),
        Err(FillError::NotPresent) => Ok(None),
    }
}

// A number of digits alone.
fn number<N: FromStr<Err = ParseIntError>>(word: &str) -> Result<N, Error> {
    if word.starts_with('+') {
        return Err(Error::InvalidParameter);
    }
    word.parse().map_err(|_| Error::InvalidParameter)
}

// Kept: no `FromStr`, here and in `allocation`, since neither type is of this crate, and the words are this program's alone.
fn channel_mode(word: &str) -> Result<SbcChannelMode, Error> {
    match word {
        "mono" => Ok(SbcChannelMode::Mono),
        "dual" => Ok(SbcChannelMode::DualChannel),
        "stereo" => Ok(SbcChannelMode::Stereo),
        "joint" => Ok(SbcChannelMode::JointStereo),
        _ => Err(Error::InvalidParameter),
    }
}

fn allocation(word: &str) -> Result<SbcAllocation, Error> {
    match word {
        "loudness" => Ok(SbcAllocation::Loudness),
        "snr" => Ok(SbcAllocation::Snr),
        _ => Err(Error::InvalidParameter),
    }
}

// The arguments' parameters: HIGH_QUALITY where there are none, and else those of six words; whether they are accepted shows later. A
// seventh word is one too many, and none behind it is read. Argument 0 is the program's name.
pub fn of_arguments(rt: &impl Env) -> Result<SbcParameters, Error> {
    let [mut a, mut b, mut c, mut d, mut e, mut f, mut g] = [[0u8; LONGEST]; 7];
    let words = [
        word_at(rt, 1, &mut a)?,
        word_at(rt, 2, &mut b)?,
        word_at(rt, 3, &mut c)?,
        word_at(rt, 4, &mut d)?,
        word_at(rt, 5, &mut e)?,
        word_at(rt, 6, &mut f)?,
        word_at(rt, 7, &mut g)?,
    ];
    match words {
        [None, ..] => Ok(SbcParameters::HIGH_QUALITY),
        [
            Some(rate),
            Some(mode),
            Some(method),
            Some(blocks),
            Some(subbands),
            Some(bitpool),
            None,
        ] => {
            Ok(SbcParameters {
                sample_rate: number(rate)?,
                channel_mode: channel_mode(mode)?,
                allocation: allocation(method)?,
                blocks: number(blocks)?,
                subbands: number(subbands)?,
                bitpool: number(bitpool)?,
            })
        }
        _ => Err(Error::InvalidParameter),
    }
}

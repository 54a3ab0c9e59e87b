// A look at the input of a decoder: whether a whole frame stands in front, and whether its byte 3 holds its checksum; and
// what a decode call does next.
// No state, no output.
#![tactic(auto)]

ghost use Rattle.std.specs.Prelude.{◌≡◌, length};
ghost use Rattle.laws.specs.Answers.{gives};
ghost use Rattle.sbc_look.specs.Look.{look_parsed, look, told_look};
ghost use Rattle.sbc_look.specs.Next.{next_short, next_whole, next, told_next};

use codec::Error;
use sbc_parameters::{AcceptedSet, SbcParameters};

// A whole frame in front of the input, and whether its byte 3 holds its checksum.
// Kept: a frame whose checksum differs is whole all the same, and is asked for room before it is refused, so that `good`
// is no case of a refusal.
#[derive(Clone, Copy)]
pub struct WholeFrame {
    pub accepted: AcceptedSet,
    pub good: bool,
}

// What stands in front of the input: a whole frame, or why there is none; Incomplete under 3 bytes, and under one frame.
#[tactic(auto, using(crate::proofs::Deciding::parsing), unfolding(crate::specs::Look::look, crate::specs::Look::look_parsed))]
pub fn look(input: &[u8]) -> Result<WholeFrame, Error>
    ensures { told_look result ≡ look input.now }
{
    let set = SbcParameters::parse(input)?;
    look_parsed(AcceptedSet { set }, input)
}

// The length and the checksum of a frame with these parameters.
#[tactic(auto, using(crate::proofs::Deciding::framing), unfolding(crate::specs::Look::look_parsed))]
fn look_parsed(accepted: AcceptedSet, input: &[u8]) -> Result<WholeFrame, Error>
    ensures { told_look result ≡ look_parsed input.now (gives accepted.set) }
{
    let set = accepted.set;
    let length = set.frame_length();
    if input.len() < length {
        return Err(Error::Incomplete);
    }
    let checksum = crc8::checksum(&input[..length], set.side_bits());
    Ok(WholeFrame {
        accepted,
        good: checksum == input[3],
    })
}

// What a decode call does next, with room for so many samples: 3 bytes, header, length, output, checksum, in this order.
// It plays a frame with the parameters that are given, or, where there are none, nothing.
#[tactic(auto, unfolding(crate::specs::Next::next, crate::specs::Next::next_at))]
pub fn decide(input: &[u8], room: usize, finishing: bool) -> Result<Option<AcceptedSet>, Error>
    ensures { told_next result ≡ next finishing input.now room }
{
    match look(input) {
        Ok(frame) => decide_whole(frame, room),
        Err(Error::Incomplete) => decide_short(input.len(), finishing),
        Err(error) => Err(error),
    }
}

// Of input that ends before its frame: Incomplete with finishing on and some input, else no frame.
#[tactic(auto, unfolding(crate::specs::Next::next_short))]
fn decide_short(size: usize, finishing: bool) -> Result<Option<AcceptedSet>, Error>
    ensures { told_next result ≡ next_short finishing size }
{
    if size == 0 {
        return Ok(None);
    }
    if finishing {
        return Err(Error::Incomplete);
    }
    Ok(None)
}

// Of a whole frame.
#[tactic(auto, unfolding(crate::specs::Next::next_whole))]
fn decide_whole(frame: WholeFrame, room: usize) -> Result<Option<AcceptedSet>, Error>
    ensures { told_next result ≡ next_whole frame.accepted.set frame.good room }
{
    let accepted = frame.accepted;
    if room < accepted.set.frame_samples() {
        return Err(Error::BufferTooSmall);
    }
    if !frame.good {
        return Err(Error::InvalidData);
    }
    Ok(Some(accepted))
}

// Where decoding resumes for a position: a byte offset of the stream, and the samples that the decoder then drops. No
// state: what it depends on is the position and the parameters of the last accepted frame.
#![tactic(auto)]

ghost use Rattle.std.specs.Prelude.{◌≡◌};
ghost use Rattle.codec.specs.Answers.{told};
ghost use Rattle.sbc_seek.specs.Seek.{seek_frame, request_in, first_request, seek_request};

use codec::Error;
use sbc_parameters::{AcceptedSet, SbcParameters};

// The blocks that the synthesis filterbank remembers.
const SYNTHESIS_HISTORY_BLOCKS: u64 = 9;

// Where to go on feeding bytes after a seek, and the samples of each channel that the decoder then drops.
#[derive(Clone, Copy, Debug, PartialEq, Eq)]
pub struct SeekRequest {
    pub byte_offset: u64,
    pub skip_frames: u32,
}

// Where to resume for a position, counted in samples of one channel from the start of the audio; `last` has the
// parameters of the last accepted frame, where there was one. The offset is counted from the start of the stream, as if
// every frame had the parameters of the last one; decoding resumes 9 blocks early, to fill the filterbank, and drops
// them.
#[tactic(auto, unfolding(crate::specs::Seek::seek_request))]
pub fn seek_request(last: Option<SbcParameters>, position: u64) -> Result<SeekRequest, Error>
    ensures { told result ≡ seek_request last position }
{
    match last {
        None => first_request(position),
        Some(parameters) => request_in(parameters, position),
    }
}

// With nothing decoded yet.
#[tactic(auto, unfolding(crate::specs::Seek::first_request))]
fn first_request(position: u64) -> Result<SeekRequest, Error>
    ensures { told result ≡ first_request position }
{
    if position == 0 {
        return Ok(SeekRequest {
            byte_offset: 0,
            skip_frames: 0,
        });
    }
    Err(Error::Incomplete)
}

// In a stream of frames with these parameters.
#[tactic(auto, using(crate::proofs::Seeking::unaccepted))]
fn request_in(parameters: SbcParameters, position: u64) -> Result<SeekRequest, Error>
    ensures { told result ≡ request_in parameters position }
{
    let accepted = AcceptedSet::try_from(parameters)?;
    accepted_request(accepted, position)
}

#[tactic(auto, using(crate::proofs::Seeking::requesting), unfolding(crate::specs::Seek::seek_offset, crate::specs::Seek::seek_skip))]
fn accepted_request(accepted: AcceptedSet, position: u64) -> Result<SeekRequest, Error>
    ensures { told result ≡ request_in accepted.set position }
{
    let set = accepted.set;
    let frame = seek_frame(accepted, position);
    let Some(byte_offset) = frame.checked_mul(set.frame_length() as u64) else {
        return Err(Error::InvalidParameter);
    };
    let skip = position - frame * set.samples_per_channel() as u64;
    Ok(SeekRequest {
        byte_offset,
        skip_frames: skip as u32,
    })
}

// The frame of the block that is 9 before the position's block, not below 0.
#[tactic(auto, using(crate::proofs::Seeking::dividing), unfolding(crate::specs::Seek::seek_frame))]
fn seek_frame(accepted: AcceptedSet, position: u64) -> u64
    ensures { result ≡ seek_frame accepted.set position }
{
    let set = accepted.set;
    let block = position / u64::from(set.subbands);
    block.saturating_sub(SYNTHESIS_HISTORY_BLOCKS) / u64::from(set.blocks)
}

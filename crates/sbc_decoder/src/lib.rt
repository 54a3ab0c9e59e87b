// The SBC and mSBC decoder: its state, and the calls that alter it where the caller has it. Their definitions stand in specs/.
#![tactic(auto)]

ghost use Rattle.std.specs.Prelude.{◌≡◌, ◌≤◌, length};
ghost use Rattle.sbc_parameters.specs.Sizes.{frame_samples};
ghost use Rattle.sbc_frame.specs.Layout.{unpack};
ghost use Rattle.sbc_decoder.specs.Decode.{cleared, play, new_decoder, finish, with_synthesis, start_histories, decode_next, decode};
ghost use Rattle.sbc_decoder.specs.Told.{told_turn, told_decoded};
ghost use Rattle.sbc_decoder.specs.Seek.{told_sought, reset, resumed, seek};

use codec::{Error, Progress, refusal_or_progress};
use sbc_decode_frame::{decode_frame, leave_out};
use sbc_filterbank::Synthesis;
use sbc_frame::FrameBytes;
use sbc_look::decide;
use sbc_parameters::SbcParameters;
use sbc_seek::{SeekRequest, seek_request};

// An SBC and mSBC decoder.
#[derive(Clone, Copy)]
pub struct SbcDecoder {
    // Of the last accepted frame, where there was one.
    pub parameters: Option<SbcParameters>,
    // By channel.
    pub synthesis: [Synthesis; 2],
    // Whether the input is said to have ended.
    // Kept: it says of no other field whether it holds something, so that an Option has no place here.
    pub finishing: bool,
    // Samples of each channel still to be dropped.
    pub skip: usize,
}

#[tactic(auto, using(crate::proofs::Clearing::clearing))]
fn no_histories() -> [Synthesis; 2]
    ensures { result ≡ cleared }
{
    [Synthesis::new(); 2]
}

impl SbcDecoder {
    // A decoder that has seen no frame.
    #[tactic(auto, unfolding(crate::specs::Decode::new_decoder))]
    pub fn new() -> SbcDecoder
        ensures { result ≡ new_decoder }
    {
        SbcDecoder {
            parameters: None,
            synthesis: no_histories(),
            finishing: false,
            skip: 0,
        }
    }

    // Makes the decoder as created.
    #[tactic(auto, unfolding(crate::specs::Seek::reset))]
    pub fn reset(&mut self)
        ensures { self.new ≡ reset self.old }
    {
        *self = SbcDecoder::new();
    }

    // The parameters of the last accepted frame, where there was one.
    pub fn parameters(&self) -> Option<SbcParameters>
        ensures { result ≡ self.now.parameters }
    {
        self.parameters
    }

    // Says that the input has ended.
    #[tactic(auto, unfolding(crate::specs::Decode::finish, crate::specs::Decode::with_finishing))]
    pub fn finish(&mut self)
        ensures { self.new ≡ finish self.old }
    {
        self.finishing = true;
    }

    // Decodes frames until no whole one is left, or one is refused: its refusal is given back where no frame was accepted before it,
    // and the progress otherwise.
    pub fn decode(&mut self, input: &[u8], output: &mut [i16]) -> Result<Progress, Error>
        ensures { told_decoded result self.new output.new ≡ decode self.old input.now output.old }
    {
        let mut done = Progress {
            consumed: 0,
            produced: 0,
        };
        // Kept: a `loop`: each turn says whether another follows, and a refusal is no error of the call where a frame came before it,
        // so that neither a `for` nor a `?` says it. It ends, since each frame takes some of the input.
        'turns: loop {
            let turn = self.decode_next(&input[done.consumed..], &mut output[done.produced..]);
            match turn {
                Ok(Some(progress)) => {
                    done.consumed += progress.consumed;
                    done.produced += progress.produced;
                }
                Ok(None) => return Ok(done),
                Err(error) => return refusal_or_progress(error, done),
            }
        }
    }

    // One turn: what is to be done with the front of the input, done: the progress of the frame that it took, where there is a whole
    // one. A refusal leaves all unchanged.
    #[tactic(auto, using(crate::proofs::Taking::deciding))]
    fn decode_next(&mut self, input: &[u8], output: &mut [i16]) -> Result<Option<Progress>, Error>
        ensures { told_turn result self.new output.new ≡ decode_next self.old input.now output.old }
    {
        let next = decide(input, output.len(), self.finishing)?;
        match next {
            None => Ok(None),
            Some(accepted) => {
                let bytes = &input[..accepted.set.frame_length()];
                Ok(Some(self.play(FrameBytes { accepted, bytes }, output)))
            }
        }
    }

    // Plays a frame. Samples that are still to be dropped are decoded, since later ones depend on them, and then left out.
    fn play(&mut self, frame: FrameBytes, output: &mut [i16]) -> Progress
        requires { frame_samples frame.accepted.set ≤ length output.old }
        ensures { let p = frame.entry.accepted.set in
            told_turn (Ok (Some result)) self.new output.new ≡ play p self.old (unpack p frame.entry.bytes.now) output.old }
    {
        let set = frame.accepted.set;
        self.start_histories(set);
        decode_frame(&mut self.synthesis, frame, output);
        let dropped = self.skip.min(set.samples_per_channel());
        let gone = dropped * usize::from(set.channels());
        let samples = set.frame_samples();
        leave_out(output, gone, samples);
        self.parameters = Some(set);
        self.skip -= dropped;
        Progress {
            consumed: frame.bytes.len(),
            produced: samples - gone,
        }
    }

    // Clears the histories where a frame's subbands differ from the last accepted frame's.
    #[tactic(auto, unfolding(crate::specs::Decode::start_histories, crate::specs::Decode::same_subbands, crate::specs::Decode::with_synthesis))]
    fn start_histories(&mut self, parameters: SbcParameters)
        ensures { self.new ≡ with_synthesis (start_histories parameters self.old) self.old }
    {
        match self.parameters {
            Some(before) if before.subbands == parameters.subbands => {}
            _ => self.synthesis = no_histories(),
        }
    }

    // Seeks to a position, counted in samples of one channel from the start of the audio: `seek_request` says where to go on.
    #[tactic(auto, using(crate::proofs::Seeking::seeking))]
    pub fn seek(&mut self, position: u64) -> Result<SeekRequest, Error>
        ensures { told_sought result self.new ≡ seek self.old position }
    {
        let request = seek_request(self.parameters, position)?;
        self.resume(request.skip_frames as usize);
        Ok(request)
    }

    // Both histories as created, finishing off, and the skip pending.
    #[tactic(auto, using(crate::proofs::Seeking::resuming))]
    fn resume(&mut self, skip: usize)
        ensures { self.new ≡ resumed skip self.old }
    {
        self.synthesis = no_histories();
        self.finishing = false;
        self.skip = skip;
    }
}

// Encodes samples of 16 bits, little endian, from standard input to an SBC or mSBC stream on standard output.
//
// The arguments are the sample rate in Hz, the mode (mono, dual, stereo, joint), the allocation (loudness, snr), the blocks, the subbands
// and the bitpool; with none, they are those of HIGH_QUALITY. Samples at the end that do not fill a frame are left out. A refusal ends the
// program, with its number on standard error; settings that are refused, or not understood, are number 3. A write that fails ends it with
// that error, and a read that fails counts as the end of the input.
#![tactic(auto)]

mod settings;

ghost use Rattle.std.specs.Prelude.{◌≡◌, ◌*◌, ◌/◌, min, take, length};
ghost use Rattle.pcm.specs.Samples.{samples_in};
ghost use Rattle.sbc_encoder.specs.Encode.{encode};
ghost use Rattle.sbc_encoder.specs.Told.{told_encoded};

use codec::{Error, Progress};
use sbc_encoder::SbcEncoder;
use std::env::Env;
use std::io;
use stream::{Coder, Stop};

// The encoder, and the buffers that a part of the input passes through: its samples, and the frames that are written. The buffer of frames
// holds what a full buffer of samples becomes: at most 2.4 bytes a sample.
#[derive(Drop)]
struct Encoding {
    encoder: SbcEncoder,
    samples: [i16; 16384],
    frames: [u8; 65536],
}

impl Coder for Encoding {
    ghost use Rattle.std.specs.Prelude.{◌≡◌, ◌*◌, ◌/◌, ℕ, min, take, length};
    ghost use Rattle.laws.specs.Answers.{gives, refuses};
    ghost use Rattle.codec.specs.Answers.{progress_of};
    ghost use Rattle.codec.specs.Errors.{error_number};
    ghost use Rattle.pcm.specs.Samples.{samples_in};
    ghost use Rattle.sbc_encoder.specs.Encode.{encode};

    // What an encode call says of the samples.
    ghost codes = { λ old raw used new. let count = min (length raw / 2) (length old.samples) in
        (consumed : ℕ) × (produced : ℕ) × (used ≡ 2 * consumed)
        × (encode old.encoder (samples_in count (take (2 * count) raw)) old.frames
        ≡ record { answer = gives (progress_of consumed produced); encoder = new.encoder; output = new.frames }) };

    // An encode call's refusal.
    ghost refuses = { λ old raw error new. let count = min (length raw / 2) (length old.samples) in
        encode old.encoder (samples_in count (take (2 * count) raw)) old.frames
        ≡ record { answer = refuses (error_number error); encoder = new.encoder; output = new.frames } };

    // Samples that do not fill a frame are left out, so that nothing changes.
    ghost ends = { λ old new. new ≡ old };

    fn code(&mut self, rt: &impl Print, raw: &[u8]) -> Result<usize, Stop> {
        let progress = self.encode(raw)?;
        rt.write_all(&self.frames[..progress.produced])?;
        Ok(2 * progress.consumed)
    }

    fn finish(&mut self) {}
}

impl Encoding {
    // Encodes the samples of the raw bytes, as many as there is room for.
    fn encode(&mut self, raw: &[u8]) -> Result<Progress, Error>
        ensures { let count = min (length raw.now / 2) (length self.old.samples) in
            told_encoded result self.new.encoder self.new.frames
            ≡ encode self.old.encoder (samples_in count (take (2 * count) raw.now)) self.old.frames }
    {
        let count = (raw.len() / 2).min(self.samples.len());
        pcm::read(&raw[..2 * count], &mut self.samples[..count]);
        self.encoder
            .encode(&self.samples[..count], &mut self.frames)
    }
}

fn encode_all(rt: &(impl Env + Input + Print)) -> Result<(), Stop> {
    let mut raw = [0u8; 32768];
    let mut encoding = Encoding {
        encoder: SbcEncoder::new(settings::of_arguments(rt)?)?,
        samples: [0; 16384],
        frames: [0; 65536],
    };
    stream::run(&mut encoding, rt, &mut rt.reader(), &mut raw)
}

fn main(rt: HostRuntime) -> io::Result<()> {
    stream::told(&rt, encode_all(&rt))
}

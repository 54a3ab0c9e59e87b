// Decodes an SBC or mSBC stream from standard input to samples of 16 bits, little endian, on standard output.
//
// A refusal ends the program, after the samples that were decoded before it, with its number on standard error; a last frame that is cut
// is number 1. A write that fails ends it with that error, and a read that fails counts as the end of the input.
#![tactic(auto)]

ghost use Rattle.std.specs.Prelude.{◌*◌, ◌≤◌, length};

use sbc_decoder::SbcDecoder;
use std::io;
use stream::{Coder, Stop};

// The decoder, and the buffers that its samples pass through: as they are decoded, and as the bytes that are written.
#[derive(Drop)]
struct Decoding {
    decoder: SbcDecoder,
    samples: [i16; 65536],
    raw: [u8; 131072],
}

impl Coder for Decoding {
    ghost use Rattle.std.specs.Prelude.{◌≡◌, ℕ};
    ghost use Rattle.laws.specs.Answers.{gives, refuses};
    ghost use Rattle.codec.specs.Answers.{progress_of};
    ghost use Rattle.codec.specs.Errors.{error_number};
    ghost use Rattle.sbc_decoder.specs.Decode.{decode, finish};

    // What a decode call says.
    ghost codes = { λ old bytes used new. (produced : ℕ) × (decode old.decoder bytes old.samples
        ≡ record { answer = gives (progress_of used produced); decoder = new.decoder; output = new.samples }) };

    // A decode call's refusal.
    ghost refuses = { λ old bytes error new. decode old.decoder bytes old.samples
        ≡ record { answer = refuses (error_number error); decoder = new.decoder; output = new.samples } };

    // The decoder is told that its input ends, and the buffers stay as they are.
    ghost ends = { λ old new. new ≡ record old { decoder = finish old.decoder } };

    fn code(&mut self, rt: &impl Print, bytes: &[u8]) -> Result<usize, Stop> {
        let progress = self.decoder.decode(bytes, &mut self.samples)?;
        write_samples(rt, &self.samples[..progress.produced], &mut self.raw)?;
        Ok(progress.consumed)
    }

    // What is held may still be a cut frame, which the decoder then refuses.
    fn finish(&mut self) {
        self.decoder.finish();
    }
}

// Writes the samples, by way of the front of the raw buffer.
fn write_samples(rt: &impl Print, samples: &[i16], raw: &mut [u8]) -> io::Result<()>
    requires { 2 * length samples.now ≤ length raw.old }
{
    let bytes = &mut raw[..2 * samples.len()];
    pcm::write(samples, bytes);
    rt.write_all(bytes)
}

fn main(rt: HostRuntime) -> io::Result<()> {
    let mut bytes = [0u8; 16384];
    let mut decoding = Decoding {
        decoder: SbcDecoder::new(),
        samples: [0; 65536],
        raw: [0; 131072],
    };
    let done = stream::run(&mut decoding, &rt, &mut rt.reader(), &mut bytes);
    stream::told(&rt, done)
}

// Runs a list of calls of the codec from standard input and writes each answer, for a test beside another codec. All numbers are little
// endian.
//
// A request is one byte and its operands, an answer an error byte, 0 for none, and the results; they are zeros on a refusal.
//   P  u16 n, n bytes: parse. The nine bytes of a set: u32 rate, mode, allocation, blocks, subbands, bitpool
//   V  a set: validate
//   N  a set: a new encoder, the old one kept on a refusal. The first has the HIGH_QUALITY set
//   E  u32 samples, u32 bytes, the samples, the output at entry: encode. u64 consumed, u64 produced, the output
//   D  u32 bytes, u32 samples, the bytes, the output at entry: decode. The same
//   S  u64 position: seek. u64 offset, u32 skip
//   F, R, r: finish, reset of the decoder, reset of the encoder
//   Q  the decoder's set: 1 and it, or 0 and zeros
//   A  a set, 16 scale factors: allocate. 16 bytes
// The program ends at the end of its input, at any other byte, at a record that is cut, and at a buffer of more than 65,536 bytes or
// samples. A write that fails ends it with that error, and a read that fails counts as the end of the input.
#![tactic(auto)]

mod end;

ghost use Rattle.std.specs.Prelude.{◌≤◌, IfOk};

use codec::{Error, Progress};
use end::End;
use sbc_allocation::allocate;
use sbc_decoder::SbcDecoder;
use sbc_encoder::SbcEncoder;
use sbc_modes::{SbcAllocation, SbcChannelMode};
use sbc_parameters::SbcParameters;
use std::io;
use std::io::{Read, Write};

// The most bytes or samples of a buffer.
const LONGEST: usize = 65_536;

// The bytes of so many samples.
const LONGEST_RAW: usize = 2 * LONGEST;

// The two codecs, between the requests and the answers.
#[derive(Drop)]
struct Replay<R, W> {
    input: R,
    output: W,
    decoder: SbcDecoder,
    encoder: SbcEncoder,
}

// The buffers, of which a request takes the fronts. The raw one is for the samples as they come and go.
#[derive(Drop)]
struct Buffers<'a> {
    bytes: &'a mut [u8; LONGEST],
    samples: &'a mut [i16; LONGEST],
    raw: &'a mut [u8; LONGEST_RAW],
}

// The set of nine bytes; a mode or an allocation past the last counts as the last.
//
// Kept: no `From`, here and in `bytes_of`, since neither type is of this crate.
fn set_of(bytes: [u8; 9]) -> SbcParameters {
    let [a, b, c, d, mode, allocation, blocks, subbands, bitpool] = bytes;
    SbcParameters {
        sample_rate: u32::from_le_bytes([a, b, c, d]),
        channel_mode: SbcChannelMode::from_number(mode),
        allocation: SbcAllocation::from_number(allocation),
        blocks,
        subbands,
        bitpool,
    }
}

fn bytes_of(set: SbcParameters) -> [u8; 9] {
    let [a, b, c, d] = set.sample_rate.to_le_bytes();
    let mode = u8::from(set.channel_mode);
    let allocation = u8::from(set.allocation);
    [
        a,
        b,
        c,
        d,
        mode,
        allocation,
        set.blocks,
        set.subbands,
        set.bitpool,
    ]
}

// The error byte of an answer.
// Kept: 0 for none, as the format of the output has it.
fn error_byte<T: Copy>(answer: Result<T, Error>) -> u8 {
    answer.err().map_or(0, u8::from)
}

// A length of the input, where a buffer may be so long.
fn length(bytes: [u8; 4]) -> Result<usize, End>
    ensures { IfOk result (λ n. n ≤ LONGEST) }
{
    usize::try_from(u32::from_le_bytes(bytes))
        .ok()
        .filter(|n| *n <= LONGEST)
        .ok_or(End::Input)
}

impl<R: Read + Drop, W: Write + Drop> Replay<R, W> {
    fn fill(&mut self, buffer: &mut [u8]) -> Result<(), End> {
        self.input.read_exact(buffer).map_err(|_| End::Input)
    }

    // The next bytes of the input.
    fn next<const N: usize>(&mut self) -> Result<[u8; N], End> {
        let mut bytes = [0u8; N];
        self.fill(&mut bytes)?;
        Ok(bytes)
    }

    // The next two lengths.
    fn lengths(&mut self) -> Result<(usize, usize), End>
        ensures { IfOk result (λ both. (both.0 ≤ LONGEST) × (both.1 ≤ LONGEST)) }
    {
        let [a, b, c, d, e, f, g, h]: [u8; 8] = self.next()?;
        Ok((length([a, b, c, d])?, length([e, f, g, h])?))
    }

    fn answer(&mut self, bytes: &[u8]) -> Result<(), End> {
        self.output.write_all(bytes)?;
        Ok(())
    }

    // What a call consumed and produced.
    fn answer_coded(&mut self, coded: Result<Progress, Error>) -> Result<(), End> {
        let progress = coded.unwrap_or(Progress::new(0, 0));
        self.answer(&[error_byte(coded)])?;
        self.answer(&progress.consumed.to_le_bytes())?;
        self.answer(&progress.produced.to_le_bytes())
    }

    fn parse(&mut self, buffers: Buffers<'_>) -> Result<(), End> {
        let count = usize::from(u16::from_le_bytes(self.next()?));
        let Buffers { bytes, .. } = buffers;
        let bytes = &mut bytes[..count];
        self.fill(bytes)?;
        let parsed = SbcParameters::parse(bytes);
        self.answer(&[error_byte(parsed)])?;
        self.answer(&parsed.map_or([0; 9], bytes_of))
    }

    fn validate(&mut self) -> Result<(), End> {
        let set = set_of(self.next()?);
        self.answer(&[error_byte(set.validate())])
    }

    fn new_encoder(&mut self) -> Result<(), End> {
        let created = SbcEncoder::new(set_of(self.next()?));
        self.answer(&[error_byte(created)])?;
        if let Ok(encoder) = created {
            self.encoder = encoder;
        }
        Ok(())
    }

    fn encode(&mut self, buffers: Buffers<'_>) -> Result<(), End> {
        let (count, room) = self.lengths()?;
        let Buffers {
            bytes,
            samples,
            raw,
        } = buffers;
        let raw = &mut raw[..2 * count];
        let samples = &mut samples[..count];
        let bytes = &mut bytes[..room];
        self.fill(raw)?;
        self.fill(bytes)?;
        pcm::read(raw, samples);
        let coded = self.encoder.encode(samples, bytes);
        self.answer_coded(coded)?;
        self.answer(bytes)
    }

    fn decode(&mut self, buffers: Buffers<'_>) -> Result<(), End> {
        let (count, room) = self.lengths()?;
        let Buffers {
            bytes,
            samples,
            raw,
        } = buffers;
        let bytes = &mut bytes[..count];
        let raw = &mut raw[..2 * room];
        let samples = &mut samples[..room];
        self.fill(bytes)?;
        self.fill(raw)?;
        pcm::read(raw, samples);
        let coded = self.decoder.decode(bytes, samples);
        pcm::write(samples, raw);
        self.answer_coded(coded)?;
        self.answer(raw)
    }

    fn seek(&mut self) -> Result<(), End> {
        let position = u64::from_le_bytes(self.next()?);
        let sought = self.decoder.seek(position);
        let (offset, skip) = sought.map_or((0, 0), |at| (at.byte_offset, at.skip_frames));
        self.answer(&[error_byte(sought)])?;
        self.answer(&offset.to_le_bytes())?;
        self.answer(&skip.to_le_bytes())
    }

    fn allocate(&mut self) -> Result<(), End> {
        let set = set_of(self.next()?);
        let factors = [self.next()?, self.next()?];
        let done = set.validate();
        let [left, right] = done.map_or([[0; 8]; 2], |()| allocate(set, factors));
        self.answer(&[error_byte(done)])?;
        self.answer(&left)?;
        self.answer(&right)
    }

    fn parameters(&mut self) -> Result<(), End> {
        let last = self.decoder.parameters();
        self.answer(&[0, u8::from(last.is_some())])?;
        self.answer(&last.map_or([0; 9], bytes_of))
    }

    // Kept: this and the two resets differ in one call, two lines each; a function that took the call would be longer than all three.
    fn finish(&mut self) -> Result<(), End> {
        self.decoder.finish();
        self.answer(&[0])
    }

    fn reset_decoder(&mut self) -> Result<(), End> {
        self.decoder.reset();
        self.answer(&[0])
    }

    fn reset_encoder(&mut self) -> Result<(), End> {
        self.encoder.reset();
        self.answer(&[0])
    }

    // One request.
    //
    // Kept: each letter stands here once, beside its step; an enum of the requests would name each three times.
    fn request(&mut self, buffers: Buffers<'_>) -> Result<(), End> {
        let [request]: [u8; 1] = self.next()?;
        match request {
            b'P' => self.parse(buffers),
            b'V' => self.validate(),
            b'N' => self.new_encoder(),
            b'E' => self.encode(buffers),
            b'D' => self.decode(buffers),
            b'S' => self.seek(),
            b'F' => self.finish(),
            b'R' => self.reset_decoder(),
            b'r' => self.reset_encoder(),
            b'Q' => self.parameters(),
            b'A' => self.allocate(),
            _ => Err(End::Input),
        }
    }

    // Kept: the loop counts its turns, up to a number that no run uses up. A proved loop has to end, and nothing says that the input does.
    fn run(&mut self) -> Result<(), End> {
        let mut bytes = [0; LONGEST];
        let mut samples = [0; LONGEST];
        let mut raw = [0; LONGEST_RAW];
        for _ in 0..u64::MAX {
            self.request(Buffers {
                bytes: &mut bytes,
                samples: &mut samples,
                raw: &mut raw,
            })?;
        }
        Ok(())
    }
}

fn main(rt: HostRuntime) -> io::Result<()> {
    let mut replay = Replay {
        input: rt.reader(),
        output: io::writer(&rt),
        decoder: SbcDecoder::new(),
        encoder: SbcEncoder::silent(SbcParameters::HIGH_QUALITY),
    };
    match replay.run() {
        Ok(()) | Err(End::Input) => Ok(()),
        Err(End::Failed(error)) => Err(error),
    }
}

// Streams that the encoders of BlueZ and FFmpeg wrote, decoded, beside the samples of the Rust and of those codecs' own decoders. The files
// stand in data/, with how they were made. Each buffer has more room than a file needs, so that a file that is too long shows.
ghost use Rattle.std.specs.Prelude.{◌≡◌, ◌*◌, ◌≤◌, length};
ghost use Rattle.sbc_figures.specs.Distance.{differing, farthest};
ghost use Rattle.pcm.specs.Samples.{samples_in};

use crate::distance::{differing, farthest};
use crate::show::{Refusal, Verdict};
use sbc_decoder::SbcDecoder;
use std::fs::File;
use std::io;
use std::io::Read;
use std::rt::Files;

// How far their samples may be from ours: their tables are coarser.
const NEAR: u16 = 8;

// How far the samples of a file are from those that were decoded.
#[derive(Clone, Copy)]
struct Distance {
    differing: usize,
    farthest: u16,
}

// Reads until the buffer is full, the input ends or a read fails, and answers how many bytes came.
fn read_full<R: Read>(input: &mut R, buffer: &mut [u8]) -> usize
    ensures { result ≤ length buffer.new }
{
    let mut done = 0;
    for _ in 0..buffer.len() {
        match input.read(&mut buffer[done..]) {
            Ok(0) | Err(_) => break,
            Ok(count) => done += count,
        }
    }
    done
}

// Reads a file into the buffer, as much of it as there is room for, and answers what came: nothing where it cannot be opened, which is said
// on standard error.
fn read_file<'a>(rt: &(impl Files + Eprint), path: &str, buffer: &'a mut [u8]) -> &'a [u8]
    ensures { length result.now ≤ length buffer.old }
{
    match File::open(rt, path) {
        Ok(mut file) => {
            let count = read_full(&mut file, buffer);
            &buffer[..count]
        }
        Err(error) => {
            let _ = eprintln!(rt; "{path}: {error}");
            &[]
        }
    }
}

// How far the samples are from those of the bytes; there is room for just as many.
fn measure(samples: &[i16], raw: &[u8], theirs: &mut [i16]) -> Distance
    requires { (length samples.now ≡ length theirs.old) × (length raw.now ≡ 2 * length theirs.old) }
    ensures differing { result.differing ≡ differing samples.now (samples_in (length samples.now) raw.now) }
    ensures farthest { result.farthest ≡ farthest samples.now (samples_in (length samples.now) raw.now) }
{
    pcm::read(raw, theirs);
    Distance {
        differing: differing(samples, theirs),
        farthest: farthest(samples, theirs),
    }
}

// How far the samples are from a file's, where it has as many.
fn beside(rt: &(impl Files + Eprint), samples: &[i16], path: &str) -> Option<Distance> {
    let mut space = [0u8; 32768];
    let mut theirs = [0i16; 16384];
    let raw = read_file(rt, path, &mut space);
    let theirs = theirs.get_mut(..samples.len())?;
    if raw.len() != 2 * samples.len() {
        return None;
    }
    Some(measure(samples, raw, theirs))
}

// The verdict: equal to the Rust, and near their own decoder. Each file is read just before its distance is written.
fn show_distances(
    rt: &(impl Files + Print + Eprint),
    samples: &[i16],
    rust: &str,
    theirs: &str,
) -> io::Result<()> {
    let count = samples.len();
    print!(rt; " {count}")?;
    let rust = beside(rt, samples, rust);
    print!(rt; " samples, the Rust's differ in ")?;
    match rust {
        Some(distance) => rt.print(distance.differing)?,
        None => rt.print("length")?,
    }
    let theirs = beside(rt, samples, theirs);
    print!(rt; ", the greatest difference from its own decoder's ")?;
    match theirs {
        Some(distance) => rt.print(distance.farthest)?,
        None => rt.print("is in length")?,
    }
    let equal = rust.is_some_and(|distance| distance.differing == 0);
    let close = theirs.is_some_and(|distance| distance.farthest <= NEAR);
    let verdict = Verdict(equal && close);
    println!(rt; ", {verdict}")
}

// Decodes a stream in one call. It is not inlined, so that the figures before the streams take no stack for its buffers.
#[inline(never)]
fn stream(
    rt: &(impl Files + Print + Eprint),
    label: &str,
    path: &str,
    rust: &str,
    theirs: &str,
) -> io::Result<()> {
    let mut space = [0u8; 8192];
    let mut samples = [0i16; 16384];
    let bytes = read_file(rt, path, &mut space);
    let length = bytes.len();
    let mut decoder = SbcDecoder::new();
    match decoder.decode(bytes, &mut samples).map_err(Refusal) {
        Ok(progress) => {
            let consumed = progress.consumed;
            print!(rt; "{label} {consumed} bytes of {length},")?;
            match samples.get(..progress.produced) {
                Some(decoded) => show_distances(rt, decoded, rust, theirs),
                None => Ok(()),
            }
        }
        Err(refusal) => println!(rt; "{label} {refusal}"),
    }
}

pub fn show_all(rt: &(impl Files + Print + Eprint)) -> io::Result<()> {
    for (label, path, rust, theirs) in [
        ("BlueZ joint", "joint.sbc", "joint.rust.pcm", "joint.pcm"),
        ("BlueZ dual", "dual.sbc", "dual.rust.pcm", "dual.pcm"),
        (
            "BlueZ stereo4",
            "stereo4.sbc",
            "stereo4.rust.pcm",
            "stereo4.pcm",
        ),
        ("BlueZ mono", "mono.sbc", "mono.rust.pcm", "mono.pcm"),
        ("BlueZ msbc", "msbc.sbc", "msbc.rust.pcm", "msbc.pcm"),
        (
            "FFmpeg stereo",
            "ffmpeg_stereo.sbc",
            "ffmpeg_stereo.rust.pcm",
            "ffmpeg_stereo.pcm",
        ),
        (
            "FFmpeg msbc",
            "ffmpeg_msbc.sbc",
            "ffmpeg_msbc.rust.pcm",
            "ffmpeg_msbc.pcm",
        ),
    ] {
        stream(rt, label, path, rust, theirs)?;
    }
    Ok(())
}

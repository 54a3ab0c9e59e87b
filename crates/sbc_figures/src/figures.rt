// The figures of document 01, on the compiled code. A set of parameters shows as rate, mode, allocation, blocks, subbands and bitpool; a
// refusal as its number. A function with many calls is proved slowly, so each group has its own.
use crate::show::{Refusal, Verdict};
use sbc_allocation::allocate;
use sbc_modes::{SbcAllocation, SbcChannelMode};
use sbc_parameters::SbcParameters;
use sbc_quantizer::{quantize, reconstruct, scale_factor};
use std::io;

// A frame's bytes and samples, and whether the set is accepted.
fn sizes(rt: &impl Print, label: &str, p: SbcParameters) -> io::Result<()> {
    let length = p.frame_length();
    let samples = p.frame_samples();
    match p.validate().map_err(Refusal) {
        Ok(()) => println!(rt; "{label} {length} {samples} accepted"),
        Err(refusal) => println!(rt; "{label} {length} {samples} {refusal}"),
    }
}

fn parse(rt: &impl Print, label: &str, bytes: &[u8]) -> io::Result<()> {
    match SbcParameters::parse(bytes).map_err(Refusal) {
        Ok(p) => {
            let SbcParameters {
                sample_rate,
                channel_mode,
                allocation,
                blocks,
                subbands,
                bitpool,
            } = p;
            let mode = u8::from(channel_mode);
            let allocation = u8::from(allocation);
            println!(rt; "{label} {sample_rate} {mode} {allocation} {blocks} {subbands} {bitpool}")
        }
        Err(refusal) => println!(rt; "{label} {refusal}"),
    }
}

// The header of a set, and the bits that the checksum covers behind it.
fn header(rt: &impl Print, label: &str, p: SbcParameters) -> io::Result<()> {
    let [a, b, c] = p.header();
    let side = p.side_bits();
    println!(rt; "{label} {a} {b} {c} {side}")
}

// `count` bits of A5 C3 0F F0 5A from bit `position` on, and the position after them.
fn read(rt: &impl Print, label: &str, position: usize, count: u32) -> io::Result<()> {
    match bits::read_at(&[0xA5, 0xC3, 0x0F, 0xF0, 0x5A], position, count) {
        Ok(read) => {
            let value = read.value;
            let end = read.position;
            println!(rt; "{label} {value} {end}")
        }
        Err(error) => println!(rt; "{label} {error:?} {position}"),
    }
}

// What three bytes of FF are after `count` low bits of `value` were written from bit `position` on.
fn write(rt: &impl Print, label: &str, position: usize, value: u32, count: u32) -> io::Result<()> {
    let mut bytes = [0xFFu8; 3];
    let written = bits::write_at(&mut bytes, position, value, count);
    let [a, b, c] = bytes;
    match written {
        Ok(end) => println!(rt; "{label} written {end} {a} {b} {c}"),
        Err(error) => println!(rt; "{label} {error:?} {position} {a} {b} {c}"),
    }
}

// The bits of the subbands of a mono set with 4 subbands and SNR.
fn allocation(rt: &impl Print, label: &str, bitpool: u8, factors: [u8; 8]) -> io::Result<()> {
    let parameters = with_bitpool(SbcChannelMode::Mono, 4, 4, bitpool);
    let [[a, b, c, d, e, _, _, _], _] = allocate(parameters, [factors, [0u8; 8]]);
    println!(rt; "{label} {a} {b} {c} {d} {e}")
}

fn with_bitpool(
    channel_mode: SbcChannelMode,
    blocks: u8,
    subbands: u8,
    bitpool: u8,
) -> SbcParameters {
    SbcParameters {
        sample_rate: 16_000,
        channel_mode,
        allocation: SbcAllocation::Snr,
        blocks,
        subbands,
        bitpool,
    }
}

fn show_sizes(rt: &impl Print) -> io::Result<()> {
    sizes(rt, "HIGH_QUALITY", SbcParameters::HIGH_QUALITY)?;
    sizes(rt, "mSBC", SbcParameters::MSBC)?;
    sizes(rt, "least", with_bitpool(SbcChannelMode::Mono, 4, 4, 2))
}

// The greatest bitpool, and one more.
fn show_limits(rt: &impl Print) -> io::Result<()> {
    let dual = SbcChannelMode::DualChannel;
    let mono = SbcChannelMode::Mono;
    sizes(rt, "dual 128", with_bitpool(dual, 16, 8, 128))?;
    sizes(rt, "dual 129", with_bitpool(dual, 16, 8, 129))?;
    sizes(rt, "mono 64", with_bitpool(mono, 4, 4, 64))?;
    sizes(rt, "mono 65", with_bitpool(mono, 4, 4, 65))
}

fn show_parsed(rt: &impl Print) -> io::Result<()> {
    parse(rt, "9C BD 35", &[0x9C, 0xBD, 0x35])?;
    parse(rt, "AD", &[0xAD])?;
    parse(rt, "AD FF FF", &[0xAD, 0xFF, 0xFF])?;
    parse(rt, "9C 02 41", &[0x9C, 0x02, 0x41])?;
    parse(rt, "9D BD 35", &[0x9D, 0xBD, 0x35])
}

fn show_headers(rt: &impl Print) -> io::Result<()> {
    header(rt, "HIGH_QUALITY header", SbcParameters::HIGH_QUALITY)?;
    header(rt, "mSBC header", SbcParameters::MSBC)
}

fn show_checksums(rt: &impl Print) -> io::Result<()> {
    for (byte, count) in [(0x01, 8), (0x80, 8), (0x1F, 4)] {
        let checksum = crc8::update_bits(0, byte, count);
        println!(rt; "{count} bits of {byte:02X} {checksum}")?;
    }
    Ok(())
}

fn show_fields(rt: &impl Print) -> io::Result<()> {
    read(rt, "8 bits at 4", 4, 8)?;
    read(rt, "32 bits at 5", 5, 32)?;
    read(rt, "no bits at 99", 99, 0)?;
    read(rt, "1 bit at 40", 40, 1)?;
    read(rt, "33 bits at 0", 0, 33)?;
    write(rt, "10 bits at 6", 6, 0x155, 10)?;
    write(rt, "1 bit at 24", 24, 0, 1)
}

fn show_shares(rt: &impl Print) -> io::Result<()> {
    allocation(rt, "0 0 0 0 of 3", 3, [0, 0, 0, 0, 0, 0, 0, 0])?;
    allocation(rt, "0 3 3 0 of 3", 3, [0, 3, 3, 0, 0, 0, 0, 0])?;
    allocation(rt, "0 3 3 0 of 64", 64, [0, 3, 3, 0, 0, 0, 0, 0])
}

fn show_reconstructed(rt: &impl Print) -> io::Result<()> {
    for (factor, bits, quantized, sample) in [
        (0, 2, 0, -1365),
        (0, 2, 1, 0),
        (0, 2, 2, 1365),
        (0, 2, 3, 2730),
        (15, 1, 0, 0),
        (15, 1, 1, 134217728),
    ] {
        let verdict = Verdict(reconstruct(quantized, factor, bits) == sample);
        println!(rt; "f {factor} b {bits} q {quantized}: {sample} {verdict}")?;
    }
    Ok(())
}

fn show_quantized(rt: &impl Print) -> io::Result<()> {
    for (sample, quantized) in [(-8192, 0), (0, 1), (8191, 2), (8192, 3)] {
        let verdict = Verdict(quantize(sample, 0, 2) == quantized);
        println!(rt; "f 0 b 2 sample {sample}: {quantized} {verdict}")?;
    }
    Ok(())
}

fn show_factors(rt: &impl Print) -> io::Result<()> {
    for (name, maximum, factor) in [
        ("8191", 8191, 0),
        ("8192", 8192, 1),
        ("2^27", 134217728, 15),
    ] {
        let verdict = Verdict(scale_factor(maximum) == factor);
        println!(rt; "maximum {name}: {factor} {verdict}")?;
    }
    Ok(())
}

pub fn show_all(rt: &impl Print) -> io::Result<()> {
    show_sizes(rt)?;
    show_limits(rt)?;
    show_parsed(rt)?;
    show_headers(rt)?;
    show_checksums(rt)?;
    show_fields(rt)?;
    show_shares(rt)?;
    show_reconstructed(rt)?;
    show_quantized(rt)?;
    show_factors(rt)
}

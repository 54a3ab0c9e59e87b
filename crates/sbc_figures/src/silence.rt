// The mSBC frame of silence, as HFP's drivers carry it, both ways.
use crate::distance::differing;
use crate::show::{Answer, Verdict};
use sbc_decoder::SbcDecoder;
use sbc_encoder::SbcEncoder;
use sbc_parameters::SbcParameters;
use std::io;

const SILENCE: [u8; 57] = [
    0xAD, 0x00, 0x00, 0xC5, 0x00, 0x00, 0x00, 0x00, 0x77, 0x6D, 0xB6, 0xDD, 0xDB, 0x6D, 0xB7, 0x76,
    0xDB, 0x6D, 0xDD, 0xB6, 0xDB, 0x77, 0x6D, 0xB6, 0xDD, 0xDB, 0x6D, 0xB7, 0x76, 0xDB, 0x6D, 0xDD,
    0xB6, 0xDB, 0x77, 0x6D, 0xB6, 0xDD, 0xDB, 0x6D, 0xB7, 0x76, 0xDB, 0x6D, 0xDD, 0xB6, 0xDB, 0x77,
    0x6D, 0xB6, 0xDD, 0xDB, 0x6D, 0xB7, 0x76, 0xDB, 0x6C,
];

// 120 zeros are written as that frame. The buffer begins with other bytes, so that one which is not written shows.
pub fn encoded(rt: &impl Print) -> io::Result<()> {
    let mut encoder = SbcEncoder::silent(SbcParameters::MSBC);
    let mut frame = [0xAAu8; 57];
    let answer = Answer(encoder.encode(&[0; 120], &mut frame));
    let verdict = Verdict(frame == SILENCE);
    println!(rt; "mSBC silence encoded {answer} as published {verdict}")
}

// That frame is read as 120 zeros. The buffer begins with ones, so that a sample which is not written shows.
pub fn decoded(rt: &impl Print) -> io::Result<()> {
    let mut decoder = SbcDecoder::new();
    let mut samples = [1i16; 120];
    let answer = Answer(decoder.decode(&SILENCE, &mut samples));
    let count = differing(&samples, &[0; 120]);
    let verdict = Verdict(count == 0);
    println!(rt; "mSBC silence decoded {answer}, from zeros differ {count}, {verdict}")
}

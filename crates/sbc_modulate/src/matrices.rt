// The cosine matrices of the folded sums, written out: each entry by its place among the 32 cosines, C.
ghost use Rattle.std.specs.Prelude.{◌≡◌};
ghost use Rattle.sbc_modulate.specs.Fold.{synthesis_rows};

use sbc_tables::{Bank, COSINE as C, Eight, Four};

// A filterbank with the cosines of its folded synthesis.
pub trait SynthesisBank: Bank {
    // For each row of the vector that is not a mirror of another, its first half.
    // Kept: one list, in rows of S/2 entries: Rattle has no computed const argument, which an array of such rows needs.
    fn rows() -> &'static [i32]
        ensures { result.now ≡ synthesis_rows Self.SUBBANDS };
}

impl SynthesisBank for Four {
    fn rows() -> &'static [i32] {
        &SYNTHESIS_4_ROWS
    }
}

impl SynthesisBank for Eight {
    fn rows() -> &'static [i32] {
        &SYNTHESIS_8_ROWS
    }
}

pub static SYNTHESIS_4_ROWS: [i32; 8] = [C[4], C[12], C[6], C[18], C[14], C[10], C[16], C[16]];

pub static SYNTHESIS_8_ROWS: [i32; 32] = [
    C[4], C[12], C[20], C[28], C[5], C[15], C[25], C[3], C[6], C[18], C[30], C[10], C[7], C[21],
    C[3], C[17], C[13], C[7], C[1], C[27], C[14], C[10], C[6], C[2], C[15], C[13], C[11], C[9],
    C[16], C[16], C[16], C[16],
];

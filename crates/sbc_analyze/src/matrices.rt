// The cosine matrices of the folded sums, written out: each entry by its place among the 32 cosines, C.
ghost use Rattle.std.specs.Prelude.{◌≡◌};
ghost use Rattle.sbc_analyze.specs.Fold.{analysis_columns};

use sbc_tables::{Bank, COSINE as C, Eight, Four};

// A filterbank with the cosines of its folded analysis.
pub trait AnalysisBank: Bank {
    // For each output in the first half, its even columns, and then its odd ones.
    // Kept: one list, in parts of S/2 entries: Rattle has no computed const argument, which an array of such parts needs.
    fn columns() -> &'static [i32]
        ensures { result.now ≡ analysis_columns Self.SUBBANDS };
}

impl AnalysisBank for Four {
    fn columns() -> &'static [i32] {
        &ANALYSIS_4_COLUMNS
    }
}

impl AnalysisBank for Eight {
    fn columns() -> &'static [i32] {
        &ANALYSIS_8_COLUMNS
    }
}

pub static ANALYSIS_4_COLUMNS: [i32; 8] = [C[0], C[4], C[2], C[6], C[0], C[12], C[6], C[18]];

pub static ANALYSIS_8_COLUMNS: [i32; 32] = [
    C[0], C[2], C[4], C[6], C[1], C[3], C[5], C[7], C[0], C[6], C[12], C[18], C[3], C[9], C[15],
    C[21], C[0], C[10], C[20], C[30], C[5], C[15], C[25], C[3], C[0], C[14], C[28], C[10], C[7],
    C[21], C[3], C[17],
];

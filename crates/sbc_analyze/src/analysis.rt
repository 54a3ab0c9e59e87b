// The analysis filterbank: a block of samples enters the history, and the history gives one sample for each subband.
//
// Each loop is written once, over the filterbank's type, so that the compiler makes a loop of known length for 4 subbands and for 8.
ghost use Rattle.std.specs.Prelude.{◌≡◌, ◌+◌, ◌*◌, ◌/◌, ◌^◌, ◌≤◌, ◌<◌, get_or, pos, nat_abs};
ghost use Rattle.laws.specs.Lists.{build};
ghost use Rattle.laws.specs.Integers.{Within};
ghost use Rattle.laws.specs.Sums.{sum_z, up_to};
ghost use Rattle.sbc_filterbank.specs.Subbands.{bands_of, padded};
ghost use Rattle.sbc_filterbank.specs.Analysis.{shifted, window_term, windowed, analysis_outputs};
ghost use Rattle.sbc_analyze.specs.Fold.{moved, entered, fold_column, even_columns, odd_columns, column_sum, output_value};

use crate::matrices::AnalysisBank;
use sbc_filterbank::products;
use sbc_tables::{Bank, Eight, Four};

// The first 9 S places of the history moved up by S.
fn shift_history<B: Bank>(history: &mut [i16; 80])
    ensures { history.new ≡ moved B.SUBBANDS (9 * B.SUBBANDS) history.old }
{
    history.copy_within(0..9 * B::SUBBANDS, B::SUBBANDS);
}

// The new samples at the front, newest first.
fn enter<B: Bank>(history: &mut [i16; 80], input: &[i16; 8])
    ensures { history.new ≡ entered B.SUBBANDS input.now history.old }
{
    for k in 0..B::SUBBANDS {
        history[k] = input[B::SUBBANDS - 1 - k];
    }
}

// The sum of Y[k], before it is divided.
fn window_sum<B: Bank>(history: &[i16; 80], k: usize) -> i64
    requires { k < 2 * B.SUBBANDS }
    ensures { (result ≡ sum_z 5 (window_term B.SUBBANDS history.now k)) × (nat_abs result ≤ 400000000 * 2 ^ 15) }
{
    let taps = B::prototype();
    let mut sum = 0i64;
    for j in 0..5 {
        let index = k + 2 * B::SUBBANDS * j;
        sum = laws::multiply_add(sum, taps[index], i32::from(history[index]));
    }
    sum
}

// Y[0] .. Y[2 S - 1], with zeros behind them.
#[derive(Drop)]
struct Windows {
    values: [i32; 16],
    ghost small: { Within 400000000 values },
}

impl Windows {
    // Those of a history.
    fn of<B: Bank>(history: &[i16; 80]) -> Windows
        ensures { result.values ≡ build 16 (up_to (2 * B.SUBBANDS) (windowed B.SUBBANDS history.now)) }
    {
        let mut values = [0i32; 16];
        for k in 0..2 * B::SUBBANDS {
            values[k] = laws::shift_down(window_sum::<B>(history, k), 15);
        }
        Windows { values }
    }

    // Column c: two entries whose cosines are equal, added. Past column S/2 they are opposite, and the second is subtracted.
    fn column<B: Bank>(&self, c: usize) -> i32
        requires { c < B.SUBBANDS }
        ensures { result ≡ fold_column B.SUBBANDS (λ k. get_or self.now.values k (pos 0)) c }
    {
        let half = B::SUBBANDS / 2;
        let right = self.values[half + c];
        if c == 0 {
            return right;
        }
        if c <= half {
            return right + self.values[half - c];
        }
        right - self.values[5 * half - c]
    }

    // All of them.
    fn columns<B: Bank>(&self) -> Columns
        ensures even { result.even ≡ even_columns B.SUBBANDS (λ k. get_or self.now.values k (pos 0)) }
        ensures odd { result.odd ≡ odd_columns B.SUBBANDS (λ k. get_or self.now.values k (pos 0)) }
    {
        let mut even = [0i32; 4];
        let mut odd = [0i32; 4];
        for n in 0..B::SUBBANDS / 2 {
            even[n] = self.column::<B>(2 * n);
            odd[n] = self.column::<B>(2 * n + 1);
        }
        Columns { even, odd }
    }
}

// The S/2 even columns of Y, and the S/2 odd ones.
#[derive(Drop)]
struct Columns {
    even: [i32; 4],
    odd: [i32; 4],
    ghost even_small: { Within 800000000 even },
    ghost odd_small: { Within 800000000 odd },
}

impl Columns {
    // The columns times the cosines of the first S/2 outputs. The last S/2 outputs have the same sums, the odd ones with the other sign.
    fn sums<B: AnalysisBank>(&self) -> Sums
        ensures even { result.even ≡ build 4 (up_to (B.SUBBANDS / 2) (column_sum B.SUBBANDS self.now.even 0)) }
        ensures odd { result.odd ≡ build 4 (up_to (B.SUBBANDS / 2) (column_sum B.SUBBANDS self.now.odd (B.SUBBANDS / 2))) }
    {
        let matrix = B::columns();
        let subbands = B::SUBBANDS;
        let half = subbands / 2;
        let mut even = [0i64; 4];
        let mut odd = [0i64; 4];
        for i in 0..half {
            let at = i * subbands;
            let middle = at + half;
            even[i] = products(&matrix[at..middle], &self.even[..half]);
            odd[i] = products(&matrix[middle..middle + half], &self.odd[..half]);
        }
        Sums { even, odd }
    }
}

// For each of the first S/2 outputs the sum of its even columns, and of its odd ones.
// Kept: beside `Columns`, two lists too: one type for both would take the entries' type and the bound, and have no method of either.
#[derive(Drop)]
struct Sums {
    even: [i64; 4],
    odd: [i64; 4],
    ghost even_small: { Within (2 ^ 32 * 800000000) even },
    ghost odd_small: { Within (2 ^ 32 * 800000000) odd },
}

impl Sums {
    // Output i, or the mirror of one in the first half.
    fn output<B: Bank>(&self, i: usize) -> i32
        requires { i < B.SUBBANDS }
        ensures { result ≡ output_value B.SUBBANDS (λ k. get_or self.now.even k (pos 0)) (λ k. get_or self.now.odd k (pos 0)) i }
    {
        if i < B::SUBBANDS / 2 {
            return laws::shift_down(self.even[i] + self.odd[i], 33);
        }
        let mirror = B::SUBBANDS - 1 - i;
        laws::shift_down(self.even[mirror] - self.odd[mirror], 33)
    }

    // The S outputs.
    fn outputs<B: Bank>(&self) -> [i32; 8]
        ensures { result
            ≡ build 8 (up_to B.SUBBANDS
            (output_value B.SUBBANDS (λ k. get_or self.now.even k (pos 0)) (λ k. get_or self.now.odd k (pos 0)))) }
    {
        let mut samples = [0i32; 8];
        for i in 0..B::SUBBANDS {
            samples[i] = self.output::<B>(i);
        }
        samples
    }
}

// One block of analysis, for the filterbank's S subbands: the first S places of `input` count, and past S outputs there are zeros. The
// history is altered where the caller has it.
pub fn analyze_by<B: AnalysisBank>(history: &mut [i16; 80], input: &[i16; 8]) -> [i32; 8]
    ensures history { history.new ≡ shifted B.SUBBANDS history.old input.now }
    ensures outputs { result ≡ padded (analysis_outputs B.SUBBANDS (shifted B.SUBBANDS history.old input.now)) }
    ensures within { Within 800000000 result }
{
    shift_history::<B>(history);
    enter::<B>(history, input);
    let windows = Windows::of::<B>(history);
    let columns = windows.columns::<B>();
    let sums = columns.sums::<B>();
    sums.outputs::<B>()
}

// One block of analysis. Any number of subbands but 4 counts as 8.
pub fn analyze(history: &mut [i16; 80], input: &[i16; 8], subbands: usize) -> [i32; 8]
    ensures history { history.new ≡ shifted (bands_of subbands) history.old input.now }
    ensures outputs { result ≡ padded (analysis_outputs (bands_of subbands) (shifted (bands_of subbands) history.old input.now)) }
    ensures within { Within 800000000 result }
{
    // Kept: a number, and one branch on it, since any number is taken: a narrower type would ask more of callers. Who knows the bank calls
    // `analyze_by`.
    if subbands == 4 {
        return analyze_by::<Four>(history, input);
    }
    analyze_by::<Eight>(history, input)
}

// The vector that the samples of the subbands give in synthesis: sums and differences of samples times the cosines of a matrix, and each
// row of the vector from a row of the matrix.
//
// Each loop is written once, over the filterbank's type, so that the compiler makes a loop of known length for 4 subbands and for 8.
#![tactic(auto)]

mod matrices;

ghost use Rattle.std.specs.Prelude.{◌≡◌, ◌+◌, ◌*◌, ◌/◌, ◌^◌, ◌≤◌, ◌<◌, eqb, get_or, pos};
ghost use Rattle.laws.specs.Lists.{build};
ghost use Rattle.laws.specs.Integers.{Within};
ghost use Rattle.laws.specs.Sums.{up_to, overwrite};
ghost use Rattle.sbc_modulate.specs.Fold.{pair_of, row_odd, row_sum, row_source, row_sign, row_value};

pub use matrices::SynthesisBank;
use sbc_filterbank::products;
use sbc_tables::Bank;

// The S/2 sums of the samples with their mirrors, and the S/2 differences. The cosines of a row are equal or opposite at a sample and its
// mirror, so each product serves both.
#[derive(Drop)]
pub struct Pairs {
    pub sums: [i32; 4],
    pub differences: [i32; 4],
    pub ghost sums_small: { Within (2 ^ 30) sums },
    pub ghost differences_small: { Within (2 ^ 30) differences },
}

// The pairs of a block's samples.
// Kept: the samples' bound in three contracts, here and in sbc_synthesize; no plainer otherwise. `FrameBytes` is made once a frame and
// handed on through three crates. A struct of a block and its bound would be made anew for each block of each channel, by sbc_play's
// `play_block`, and taken apart here, two calls later.
pub fn pair_all<B: Bank>(input: &[i32; 8]) -> Pairs
    requires { Within (2 ^ 29) input.now }
    ensures sums { result.sums ≡ build 4 (up_to (B.SUBBANDS / 2) (pair_of B.SUBBANDS 0 (λ k. get_or input.now k (pos 0)))) }
    ensures differences { result.differences
        ≡ build 4 (up_to (B.SUBBANDS / 2) (pair_of B.SUBBANDS 1 (λ k. get_or input.now k (pos 0)))) }
{
    let subbands = B::SUBBANDS;
    let mut sums = [0i32; 4];
    let mut differences = [0i32; 4];
    for n in 0..subbands / 2 {
        let left = input[n];
        let right = input[subbands - 1 - n];
        sums[n] = left + right;
        differences[n] = left - right;
    }
    Pairs { sums, differences }
}

// Row m of the matrix, times the sums or the differences.
fn row<B: SynthesisBank>(pairs: &Pairs, m: usize) -> i64
    requires { m < B.SUBBANDS }
    ensures { result ≡ row_sum B.SUBBANDS pairs.now.sums pairs.now.differences m }
{
    let half = B::SUBBANDS / 2;
    let cosines = &B::rows()[m * half..m * half + half];
    if takes_sums::<B>(m) {
        return products(cosines, &pairs.sums[..half]);
    }
    products(cosines, &pairs.differences[..half])
}

// Whether row m takes the sums; the others take the differences. The matrix leaves out the rows that mirror others.
fn takes_sums<B: Bank>(m: usize) -> bool
    requires { m < B.SUBBANDS }
    ensures { result ≡ eqb (row_odd B.SUBBANDS m) 0 }
{
    let half = B::SUBBANDS / 2;
    if m < half {
        return (m + half) % 2 == 0;
    }
    (m + half + 1 + half) % 2 == 0
}

// The S rows.
pub fn row_all<B: SynthesisBank>(pairs: &Pairs) -> [i64; 8]
    ensures { result ≡ build 8 (up_to B.SUBBANDS (row_sum B.SUBBANDS pairs.now.sums pairs.now.differences)) }
{
    let mut rows = [0i64; 8];
    for m in 0..B::SUBBANDS {
        rows[m] = row::<B>(pairs, m);
    }
    rows
}

// The row of the matrix that gives row r of V: the row itself, or one that it mirrors.
fn row_source<B: Bank>(r: usize) -> usize
    requires { r < 2 * B.SUBBANDS }
    ensures { result ≡ row_source B.SUBBANDS r }
{
    let subbands = B::SUBBANDS;
    let half = subbands / 2;
    if r < half {
        return r;
    }
    if r <= subbands {
        return subbands - r;
    }
    if r <= 3 * half {
        return r - half - 1;
    }
    5 * half - r - 1
}

// The sign that row r of V has from there. Row S/2 is 0.
fn row_sign<B: Bank>(r: usize) -> i64
    ensures { result ≡ row_sign B.SUBBANDS r }
{
    let subbands = B::SUBBANDS;
    let half = subbands / 2;
    if r == half {
        return 0;
    }
    if r < half {
        return 1;
    }
    if r <= subbands {
        return -1;
    }
    1
}

// V[r]. The sign goes on before the division, which rounds down: a row divided and then negated would be rounded up.
fn modulate<B: Bank>(rows: &[i64; 8], r: usize) -> i32
    requires { (r < 2 * B.SUBBANDS) × (Within (2 ^ 62) rows.now) }
    ensures { result ≡ row_value B.SUBBANDS rows.now r }
{
    let source = row_source::<B>(r);
    let sign = row_sign::<B>(r);
    laws::clamp_i32((sign * rows[source]) >> 30)
}

// V into the ring, from `at` on.
pub fn push<B: Bank>(values: &mut [i32; 160], rows: &[i64; 8], at: usize)
    requires { (at + 2 * B.SUBBANDS ≤ 160) × (Within (2 ^ 62) rows.now) }
    ensures { values.new ≡ overwrite at (2 * B.SUBBANDS) (row_value B.SUBBANDS rows.now) values.old }
{
    for r in 0..2 * B::SUBBANDS {
        values[at + r] = modulate::<B>(rows, r);
    }
}

// The synthesis filterbank of SBC, block by block: the samples of the subbands give a vector, which enters a ring of ten, and the ten
// vectors give a block.
//
// Each loop is written once, over the filterbank's type, so that the compiler makes a loop of known length for 4 subbands and for 8.
#![tactic(auto)]

ghost use Rattle.std.specs.Prelude.{ℕ, ◌≡◌, ◌+◌, ◌*◌, ◌%◌, ◌^◌, ◌≤◌, ◌<◌, length, get_or, pos, nat_abs};
ghost use Rattle.laws.specs.Lists.{build};
ghost use Rattle.laws.specs.Integers.{Within};
ghost use Rattle.laws.specs.Sums.{up_to};
ghost use Rattle.sbc_filterbank.specs.Subbands.{bands_of, padded};
ghost use Rattle.sbc_filterbank.specs.Synthesis.{modulated, vector_place, rounding_bits, rounded, synthesis_outputs};
ghost use Rattle.sbc_filterbank.specs.Ring.{ring, next_slot, ring_pushed};
ghost use Rattle.sbc_synthesize.specs.Summing.{output_bound, OutputSums};

use sbc_filterbank::{Synthesis, advance};
use sbc_modulate::{SynthesisBank, pair_all, push, row_all};
use sbc_tables::{Bank, Eight, Four};

// The ring of the last ten vectors, with a slot of it as the newest.
#[derive(Clone, Copy)]
struct Ring<'a> {
    values: &'a [i32; 160],
    newest: usize,
    ghost slot: { newest < 10 },
}

impl<'a> Ring<'a> {
    // Where V_b[0], or V_b[S] for odd b, stands in the ring, with the S - 1 numbers that the other outputs take behind it: as if the ring's
    // slots went on, and back by the ten slots where they end.
    fn place<B: Bank>(&self, b: usize) -> usize
        requires { b < 10 }
        ensures { (j : ℕ) → j < B.SUBBANDS
            → (result + j ≡ 2 * B.SUBBANDS * ((self.now.newest + b) % 10) + vector_place B.SUBBANDS j b) × (result + j < 160) }
    {
        let subbands = B::SUBBANDS;
        let at = 2 * subbands * (self.newest + b) + b % 2 * subbands;
        if self.newest + b < 10 {
            return at;
        }
        at - 20 * subbands
    }

    // The sums of the outputs over the b newest vectors, with the next vector's terms added.
    // Kept: places computed in the prototype and in the ring, which are flat lists: their rows have S and 2 S entries, and Rattle has no
    // const argument that is computed.
    fn add_vector<B: Bank>(&self, sums: &[i64; 8], b: usize) -> [i64; 8]
        requires { (b < 10) × (OutputSums B.SUBBANDS (ring B.SUBBANDS self.now.values.now self.now.newest) b sums.now) }
        ensures { OutputSums B.SUBBANDS (ring B.SUBBANDS self.now.values.now self.now.newest) (b + 1) result }
    {
        let subbands = B::SUBBANDS;
        let taps = B::prototype();
        let at = self.place::<B>(b);
        let mut more = [0i64; 8];
        for j in 0..subbands {
            more[j] = laws::multiply_add(sums[j], taps[b * subbands + j], self.values[at + j]);
        }
        more
    }

    // The sums of the outputs, before they are rounded.
    fn sums<B: Bank>(&self) -> [i64; 8]
        ensures { OutputSums B.SUBBANDS (ring B.SUBBANDS self.now.values.now self.now.newest) 10 result }
    {
        let mut sums = [0i64; 8];
        for b in 0..10 {
            sums = self.add_vector::<B>(&sums, b);
        }
        sums
    }
}

// By how many bits a negated sum is shifted before the last one.
// Kept: a test of the bank's constant, decided as it is compiled. A member of the trait `Bank` would take a clause and two bodies.
fn first_bits<B: Bank>() -> u32
    ensures { result + 1 ≡ rounding_bits B.SUBBANDS }
{
    if B::SUBBANDS == 4 { 37 } else { 36 }
}

// The sum negated and divided, rounded to the nearest and clamped. Half of the divisor is added as 1 before the last bit goes, and as an
// i32: then the compiler clamps the outputs together.
fn round<B: Bank>(sum: i64) -> i16
    requires { nat_abs sum ≤ output_bound }
    ensures { result ≡ rounded B.SUBBANDS sum }
{
    laws::clamp_i16(i64::from((laws::shift_down(0 - sum, first_bits::<B>()) + 1) >> 1))
}

// The S outputs.
fn output<B: Bank>(sums: &[i64; 8]) -> [i16; 8]
    requires { Within output_bound sums.now }
    ensures { result ≡ build 8 (up_to B.SUBBANDS (λ j. rounded B.SUBBANDS (get_or sums.now j (pos 0)))) }
{
    let mut out = [0i16; 8];
    for j in 0..B::SUBBANDS {
        out[j] = round::<B>(sums[j]);
    }
    out
}

// One block of synthesis, for the filterbank's S subbands: the first S places of `input` count, and past S outputs there are zeros. The
// history is altered where the caller has it; the clause `long` says what a caller, who lends the struct, does not learn from its type. The
// bound on the samples keeps pairs within an i32 and sums within an i64.
// Never inlined: in a loop over blocks, whose history is a local, the compiler would choose each of the 80 places anew (40,900 instructions
// a frame of HIGH_QUALITY against 31,300).
#[inline(never)]
pub fn synthesize_by<B: SynthesisBank>(history: &mut Synthesis, input: &[i32; 8]) -> [i16; 8]
    requires { Within (2 ^ 29) input.now }
    ensures values { history.new.values
        ≡ ring_pushed B.SUBBANDS (modulated B.SUBBANDS input.now) history.old.values history.old.newest }
    ensures long { length history.new.values ≡ 160 }
    ensures newest { history.new.newest ≡ next_slot history.old.newest }
    ensures outputs { result ≡ padded (synthesis_outputs B.SUBBANDS (ring B.SUBBANDS history.new.values history.new.newest)) }
{
    let slot = advance(history.newest);
    let pairs = pair_all::<B>(input);
    let rows = row_all::<B>(&pairs);
    push::<B>(&mut history.values, &rows, 2 * B::SUBBANDS * slot);
    // After the vector's stores, so that the compiler need not read it again.
    history.newest = slot;
    let ring = Ring {
        values: &history.values,
        newest: slot,
    };
    let sums = ring.sums::<B>();
    output::<B>(&sums)
}

// One block of synthesis. Any number of subbands but 4 counts as 8.
pub fn synthesize(history: &mut Synthesis, input: &[i32; 8], subbands: usize) -> [i16; 8]
    requires { Within (2 ^ 29) input.now }
    ensures values { history.new.values
        ≡ ring_pushed (bands_of subbands) (modulated (bands_of subbands) input.now) history.old.values history.old.newest }
    ensures long { length history.new.values ≡ 160 }
    ensures newest { history.new.newest ≡ next_slot history.old.newest }
    ensures outputs { result
        ≡ padded (synthesis_outputs (bands_of subbands) (ring (bands_of subbands) history.new.values history.new.newest)) }
{
    // Kept: a number, and one branch on it, since any number is taken: a narrower type would ask more of callers. Who knows the bank calls
    // `synthesize_by`.
    if subbands == 4 {
        return synthesize_by::<Four>(history, input);
    }
    synthesize_by::<Eight>(history, input)
}

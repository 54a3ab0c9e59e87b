// Joint stereo: which subbands are coded as the sum and the difference of the channels.
#![tactic(auto)]

ghost use Rattle.std.specs.Prelude.{◌≡◌, ℕ, ◌<◌, [], eqb, get_or, ◌+ℤ◌, ◌-ℤ◌, if◌then◌else◌};
ghost use Rattle.laws.specs.Integers.{floor_div};
ghost use Rattle.sbc_frame.specs.Encoding.{sample_at};
ghost use Rattle.sbc_frame.specs.Arrays.{entry, rows_of, with_flagged};
ghost use Rattle.sbc_join.specs.Joining.{half_sums, half_differences, joined_samples, cost_in, join_row, picked_row};

use sbc_frame::{BlockCount, Blocks, Factors};
use std::array;

// Half the one and half the other, added.
// Kept: this and `half_difference`, and the rows of either, differ in a sign; one that took the step as a closure would ask for its
// contract and be longer than both.
fn half_sum(a: i32, b: i32) -> i32
    ensures { result ≡ floor_div a 2 +ℤ floor_div b 2 }
{
    (a >> 1) + (b >> 1)
}

// Half the one less half the other.
fn half_difference(a: i32, b: i32) -> i32
    ensures { result ≡ floor_div a 2 -ℤ floor_div b 2 }
{
    (a >> 1) - (b >> 1)
}

// Both halved, then added.
fn half_sums(left: &[i32; 8], right: &[i32; 8]) -> [i32; 8]
    ensures { result ≡ half_sums left.now right.now }
{
    array::from_fn(|s| half_sum(left[s], right[s]))
}

// Both halved, then subtracted.
fn half_differences(left: &[i32; 8], right: &[i32; 8]) -> [i32; 8]
    ensures { result ≡ half_differences left.now right.now }
{
    array::from_fn(|s| half_difference(left[s], right[s]))
}

// The joined samples: sums in place of the first channel and differences in place of the second.
pub fn join(samples: &[Blocks; 2]) -> [Blocks; 2]
    ensures { (c : ℕ) → c < 2 → rows_of result c ≡ joined_samples (rows_of samples.now) c }
{
    let [left, right] = samples;
    let mut joined = [Blocks { rows: [[0; 8]; 16] }; 2];
    for b in 0..16 {
        joined[0].rows[b] = half_sums(&left.rows[b], &right.rows[b]);
        joined[1].rows[b] = half_differences(&left.rows[b], &right.rows[b]);
    }
    joined
}

// The scale factors of a subband in both channels, added.
fn cost(factors: &Factors, subband: usize) -> u8
    requires { subband < 8 }
    ensures { result ≡ cost_in factors.now.rows subband }
{
    factors.rows[0][subband] + factors.rows[1][subband]
}

// 1 for each subband but the last whose new scale factors add to less than the old.
pub fn join_flags(plain: &Factors, joined: &Factors, subbands: usize) -> [u8; 8]
    ensures { result ≡ join_row subbands plain.now.rows joined.now.rows }
{
    array::from_fn(|s| u8::from(s + 1 < subbands && cost(joined, s) < cost(plain, s)))
}

// The joined entry where a flag is set. The closure says what it gives: the check does not read that off the body of a generic one.
// The rows come by value: of lent ones the compiler would choose a place for each entry, 18 instructions more a row.
pub fn pick<T: Copy>(flags: &[u8; 8], plain: [T; 8], joined: [T; 8]) -> [T; 8]
    ensures { (d : T) → result ≡ picked_row d flags.now plain joined }
{
    array::from_fn(
        |s: usize| -> T
            requires { s < 8 }
            ensures { (d : T) → result
                ≡ (if eqb (entry flags.entry.now s) 1 then get_or joined s d else get_or plain s d) }
        { if flags[s] == 1 { joined[s] } else { plain[s] } },
    )
}

// The joined samples of a channel where a flag is set.
pub fn pick_samples(samples: &mut Blocks, joined: &Blocks, flags: &[u8; 8], blocks: BlockCount)
    ensures { samples.new.rows ≡ with_flagged blocks.count flags.now (sample_at joined.now.rows) samples.old.rows }
{
    for block in 0..blocks.count {
        samples.rows[block] = pick(flags, samples.rows[block], joined.rows[block]);
    }
}

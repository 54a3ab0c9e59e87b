// Laws on integers, sums, lists and bit fields, in specs/ and proofs/, and small functions on integers and lists. Nothing here knows of
// audio.
#![tactic(auto)]

ghost use Rattle.std.specs.Prelude.{◌≡◌, ◌^◌, ◌<◌, ◌≤◌, ◌+ℤ◌, ◌*ℤ◌, length, if◌then◌else◌, None, Some};
ghost use Rattle.std.specs.List.{sum_by};
ghost use Rattle.std.specs.Int.{w16, w32, w64};
ghost use Rattle.std.proofs.Common.{SFits};
ghost use Rattle.laws.specs.Lists.{index_of, listed, place_in};
ghost use Rattle.laws.specs.Integers.{floor_div, clamp_z};

// 2 to the exponent.
pub fn power_of_two(exponent: u32) -> u32
    requires { exponent < 32 }
    ensures { result ≡ 2 ^ exponent }
{
    1 << exponent
}

// sum + a * b, where that fits.
pub fn multiply_add(sum: i64, a: i32, b: i32) -> i64
    requires { SFits w64 (sum +ℤ a *ℤ b) }
    ensures { result ≡ sum +ℤ a *ℤ b }
{
    sum + i64::from(a) * i64::from(b)
}

// x divided by 2 ^ bits, rounded down, where that fits.
pub fn shift_down(x: i64, bits: u32) -> i32
    requires { (bits < 64) × SFits w32 (floor_div x (2 ^ bits)) }
    ensures { result ≡ floor_div x (2 ^ bits) }
{
    (x >> bits) as i32
}

// The nearest i32.
// Kept: this and `clamp_i16` stay two. Each is one line over the library's clamp; a trait for both would hold the same two lines, and be
// no plainer.
#[tactic(auto, using(crate::proofs::Clamps::clamp_is), unfolding(crate::specs::Integers::clamp_z))]
pub fn clamp_i32(x: i64) -> i32
    ensures { result ≡ clamp_z w32 x }
{
    x.clamp(-2147483648, 2147483647) as i32
}

// The nearest i16.
#[tactic(auto, using(crate::proofs::Clamps::clamp_is), unfolding(crate::specs::Integers::clamp_z))]
pub fn clamp_i16(x: i64) -> i16
    ensures { result ≡ clamp_z w16 x }
{
    x.clamp(-32768, 32767) as i16
}

// The place of a value in a list, where it is in it.
#[tactic(auto, using(crate::proofs::Tests::index_is), unfolding(crate::specs::Lists::listed))]
pub fn find(value: u32, values: &[u32]) -> Option<usize>
    ensures { result ≡ (if listed value values.now then Some (index_of value values.now) else None) }
{
    values.iter().position(|x| value == *x)
}

// The place of a value in a list, or the list's length where it is not in it.
// Kept: a number and no Option, since this public function could never fail; `find`, beside it, gives the Option. And a loop over the
// places: a search that begins at the second, or leaves places out, is then wrong by one operand of it, and refused by a fact.
#[tactic(auto, using(crate::proofs::Tests::index_here, crate::proofs::Tests::index_next, crate::proofs::Tests::index_end))]
pub fn index_of(value: u32, values: &[u32]) -> usize
    ensures { result ≡ index_of value values.now }
{
    for i in 0..values.len() {
        if value == values[i] {
            return i;
        }
    }
    values.len()
}

// Whether a value is in a list.
#[tactic(auto, using(crate::proofs::Tests::listed_is))]
pub fn is_listed(value: u32, values: &[u32]) -> bool
    ensures { result ≡ listed value values.now }
{
    values.contains(&value)
}

// The place of a value in a list, or 0 where it is not in it.
// Kept: 0 and no Option, as the definition says: a header has an index for every set. `find` tells the two apart.
#[tactic(auto, unfolding(crate::specs::Lists::place_in))]
pub fn place_in(value: u32, values: &[u32]) -> usize
    ensures { result ≡ place_in value values.now }
{
    find(value, values).unwrap_or(0)
}

// The sum of a row.
pub fn sum_of(row: &[u8]) -> u32
    requires { length row.now ≤ 2 ^ 24 }
    ensures { result ≡ sum_by (λ v. v) row.now }
{
    let mut sum = 0;
    for value in row {
        sum += u32::from(*value);
    }
    sum
}

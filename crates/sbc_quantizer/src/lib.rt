// Scale factors, the quantizer and the dequantizer of SBC's subband samples (document 01, "Quantizing").
#![tactic(auto)]

ghost use Rattle.std.specs.Prelude.{◌≡◌, ℕ, ◌+◌, ◌-◌, ◌/◌, ◌^◌, ◌≤◌, ◌<◌, pos, nat_abs, ◌+ℤ◌};
ghost use Rattle.std.specs.Int.Signed.{quot_z};
ghost use Rattle.sbc_quantizer.specs.Quantizing.{scale_factor, levels, quantize, reconstruct};
ghost use Rattle.sbc_quantizer.specs.Dequantizing.{held_between, dequantizer, Dequantizes};

use laws::power_of_two;

// The scale factor of a subband whose greatest absolute value is `maximum`. Between the least factor and the greatest, it
// is the factor f for which `maximum` has f + 13 binary digits, so that no search is needed.
pub fn scale_factor(maximum: u32) -> u8
    ensures { result ≡ scale_factor maximum }
{
    if 134217728 <= maximum {
        return 15;
    }
    if 8192 <= maximum {
        return (19 - u32::leading_zeros(maximum)) as u8;
    }
    0
}

// The greatest value of so many bits.
fn levels(bits: u8) -> u32
    requires { bits < 32 }
    ensures { result ≡ levels bits }
{
    power_of_two(u32::from(bits)) - 1
}

// sample + limit, held between 0 and twice the limit: a sample outside the limits is then quantized like one at a limit.
#[tactic(auto, using(crate::proofs::Limits::held_is))]
fn raised(sample: i32, limit: u32) -> i64
    ensures { result ≡ pos (held_between (limit + limit) (sample +ℤ pos limit)) }
{
    let sum = i64::from(sample) + i64::from(limit);
    let top = i64::from(limit) + i64::from(limit);
    sum.clamp(0, top)
}

// The quantized value of a sample.
// Kept: the factor and the number of bits are two parameters, and their bounds stand here, at `Dequantizer::new` and at `reconstruct`, that
// of the bits alone at `reciprocal` too. Callers have them in two rows of a frame, so that a struct of both would live for one call.
#[tactic(auto, using(crate::proofs::Limits::quantize_held, crate::proofs::Limits::product_fits, crate::proofs::Limits::quotient_fits))]
pub fn quantize(sample: i32, scale_factor: u8, bits: u8) -> u32
    requires { (scale_factor ≤ 15) × (bits ≤ 16) }
    ensures { result ≡ quantize sample scale_factor bits }
{
    let limit = power_of_two(u32::from(scale_factor) + 13);
    let product = (raised(sample, limit) as u64) * u64::from(levels(bits));
    (product >> (u32::from(scale_factor) + 14)) as u32
}

// 2 ^ 31 / (2 ^ bits - 1), rounded down, for 1 to 16 bits.
static RECIPROCALS: [u32; 16] = [
    2147483648, 715827882, 306783378, 143165576, 69273666, 34087042, 16909320, 8421504, 4202512,
    2099202, 1049088, 524416, 262176, 131080, 65538, 32768,
];

// The reciprocal of so many bits.
fn reciprocal(bits: u8) -> u32
    requires { (0 < bits) × (bits ≤ 16) }
    ensures { result ≡ 2 ^ 31 / levels bits }
{
    RECIPROCALS[usize::from(bits) - 1]
}

// x / 2 ^ bits, cut toward zero. A shift rounds down: x - 1 of a negative x gives one less than the quotient. No branch decides which it
// is, since the signs of a frame are random.
fn cut(x: i32, bits: u32) -> i32
    requires { (bits < 32) × (nat_abs x < 2 ^ 31) }
    ensures { result ≡ quot_z x (pos (2 ^ bits)) }
{
    let below = i32::from(x < 0);
    ((x - below) >> bits) + below
}

// Reconstructs the values of one subband, by a multiplication and a shift in place of the division. 0 bits give 0.
#[derive(Clone, Copy)]
pub struct Dequantizer {
    pub multiplier: u32,
    pub tail: u32,
    pub offset: u32,
}

impl Dequantizer {
    // For the values of so many bits at a scale factor.
    #[tactic(auto, using(crate::proofs::Division::shifted), unfolding(crate::specs::Dequantizing::dequantizer))]
    pub fn new(bits: u8, scale_factor: u8) -> Self
        requires { (bits ≤ 16) × (scale_factor ≤ 15) }
        ensures { result ≡ dequantizer scale_factor bits }
    {
        if bits == 0 {
            return Self {
                multiplier: 0,
                tail: 0,
                offset: 0,
            };
        }
        let shift = scale_factor + 12;
        Self {
            multiplier: reciprocal(bits) >> (31 - shift),
            tail: u32::from(bits - shift % bits),
            offset: power_of_two(u32::from(bits) - 1) - 1,
        }
    }

    // The reconstruction of a value, by the steps from the value that reconstructs to 0.
    pub fn apply(self, quantized: u32) -> i32
        requires { (f : ℕ) × (b : ℕ) × Dequantizes self quantized f b }
        ensures { (f b : ℕ) → Dequantizes self quantized f b → result ≡ reconstruct quantized f b }
    {
        let steps = (quantized as i32) - (self.offset as i32);
        (self.multiplier as i32) * steps + cut(steps, self.tail)
    }
}

// The reconstruction of a single value.
pub fn reconstruct(quantized: u32, scale_factor: u8, bits: u8) -> i32
    requires { (bits ≤ 16) × (scale_factor ≤ 15) × (quantized < 2 ^ bits) }
    ensures { result ≡ reconstruct quantized scale_factor bits }
{
    Dequantizer::new(bits, scale_factor).apply(quantized)
}

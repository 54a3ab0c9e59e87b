// Bits of a slice of bytes at a bit position, high bit first, by whole bytes.
#![tactic(auto)]

ghost use Rattle.std.specs.Prelude.{◌≡◌, ◌++◌, ◌+◌, ◌*◌, ◌<◌, ◌≤◌, ◌^◌, length, take, drop};
ghost use Rattle.laws.specs.Bits.{bits_of, number_of, bits_of_bytes};
ghost use Rattle.bits.specs.Fields.{inside, number_at, overwritten, told_read, read_at, told_written, write_at};

use codec::Error;

// The number that a read found, and the position after it.
#[derive(Clone, Copy)]
pub struct Read {
    pub value: u32,
    pub position: usize,
}

// Whether `count` bits, at most 32, stand from bit `position` on in the bytes.
#[tactic(auto, unfolding(crate::specs::Fields::inside, crate::specs::Fields::bit_end))]
fn is_inside(bytes: &[u8], position: usize, count: u32) -> bool
    ensures { result ≡ inside bytes.now position count }
{
    if 32 < count {
        return false;
    }
    let Some(end) = position.checked_add(count as usize) else {
        return false;
    };
    end.div_ceil(8) <= bytes.len()
}

// The bytes, at most 5, as one number, the high byte first.
fn window(bytes: &[u8]) -> u64
    requires { length bytes.now ≤ 5 }
    ensures { result ≡ number_of (bits_of_bytes bytes.now) }
{
    let mut number: u64 = 0;
    for byte in bytes {
        number = number * 256 + u64::from(*byte);
    }
    number
}

// The number that `count` bits from bit `position` on write.
// Kept: a body of its own beside sbc_read's `number_at`, which has the same definition: this is the general one. That one
// reads four bytes of a padded frame; by this one a decoded frame takes 16 to 20 % more instructions (docs/DECISIONS.md, 44).
fn number_at(bytes: &[u8], position: usize, count: u32) -> u32
    requires { (count ≤ 32) × (position + count ≤ 8 * length bytes.now) }
    ensures { result ≡ number_at bytes.now position count }
{
    let n = count as usize;
    let first = position / 8;
    let offset = position % 8;
    let size = (offset + n).div_ceil(8);
    let low = 8 * size - offset - n;
    let number = window(&bytes[first..first + size]);
    ((number >> low) % (1 << count)) as u32
}

// `count` bits from bit `position` on: 0 for no bits, and Incomplete past the end.
// Kept: the bytes and the position as two parameters, here and in `write_at`: document 01 names the form, "thin over a
// function on slice and number". The struct of both is `bitstream`'s.
#[tactic(auto, using(crate::proofs::Ends::inside_true), unfolding(crate::specs::Fields::told_read, crate::specs::Fields::read_at))]
pub fn read_at(bytes: &[u8], position: usize, count: u32) -> Result<Read, Error>
    ensures { told_read position result ≡ read_at bytes.now position count }
{
    if count == 0 {
        return Ok(Read { value: 0, position });
    }
    if !is_inside(bytes, position, count) {
        return Err(Error::Incomplete);
    }
    Ok(Read {
        value: number_at(bytes, position, count),
        position: position + count as usize,
    })
}

// The byte whose `n` bits behind its first `offset` are the low `n` bits of `value`.
fn with_bits(byte: u8, offset: usize, value: u32, n: usize) -> u8
    requires { offset + n ≤ 8 }
    ensures { result ≡ number_of (take offset (bits_of 8 byte) ++ (bits_of n value ++ drop (offset + n) (bits_of 8 byte))) }
{
    let low = 8 - offset - n;
    let span: u64 = 1 << n;
    let unit: u64 = 1 << low;
    let whole = u64::from(byte);
    let before = whole >> (n + low);
    let written = u64::from(value) % span;
    let behind = whole % unit;
    ((before * span + written) * unit + behind) as u8
}

// The low `count` bits of `value` in place of those from bit `position` on. At byte i the low `left` bits are still to
// write: as many as the byte has room for go into it, the high ones of them.
fn overwrite(bytes: &mut [u8], position: usize, value: u32, count: u32)
    requires { (count ≤ 32) × (position + count ≤ 8 * length bytes.old) × (position + count < 2 ^ 64) }
    ensures { bytes.new ≡ overwritten bytes.old position value count }
{
    let end = position + count as usize;
    for i in position / 8..end.div_ceil(8) {
        let at = position.max(8 * i);
        let left = end - at;
        let offset = at % 8;
        let n = left.min(8 - offset);
        bytes[i] = with_bits(bytes[i], offset, value >> (left - n), n);
    }
}

// The low `count` bits of `value` from bit `position` on, over what stood there, and the position after them; BufferTooSmall, and nothing
// written, past the end.
#[tactic(auto, using(crate::proofs::Ends::inside_true), unfolding(crate::specs::Fields::told_written, crate::specs::Fields::write_at))]
pub fn write_at(bytes: &mut [u8], position: usize, value: u32, count: u32) -> Result<usize, Error>
    ensures { told_written position result bytes.new ≡ write_at bytes.old position value count }
{
    if count == 0 {
        return Ok(position);
    }
    if !is_inside(bytes, position, count) {
        return Err(Error::BufferTooSmall);
    }
    overwrite(bytes, position, value, count);
    Ok(position + count as usize)
}

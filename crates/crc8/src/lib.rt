// CRC-8 with the polynomial hexadecimal 1D, high bit first, bit by bit.
#![tactic(auto)]

ghost use Rattle.std.specs.Prelude.{◌≡◌, take};
ghost use Rattle.laws.specs.Bits.{odd, bits_of, bits_of_bytes};
ghost use Rattle.crc8.specs.Checksum.{crc_step, crc_bits, checksum};

const POLYNOMIAL: u8 = 0x1D;

// What the register holds before the first bit of a frame.
const START: u8 = 0x0F;

// The register after one bit, the low bit of `bit`.
#[tactic(auto, using(crate::proofs::Registers::step_test))]
fn step(crc: u8, bit: u8) -> u8
    ensures { result ≡ crc_step crc (odd bit) }
{
    let moved = (crc % 128) * 2;
    if crc / 128 == bit % 2 {
        return moved;
    }
    POLYNOMIAL ^ moved
}

// The register after the `count` high bits of `byte`, at most all 8. Bit i stands 7 - i places above the low bit, which `step` takes.
pub fn update_bits(crc: u8, byte: u8, count: u32) -> u8
    ensures { result ≡ crc_bits crc (take count (bits_of 8 byte)) }
{
    let mut register = crc;
    for i in 0..count.min(8) {
        register = step(register, byte >> (7 - i));
    }
    register
}

// The register after whole bytes.
pub fn update(crc: u8, bytes: &[u8]) -> u8
    ensures { result ≡ crc_bits crc (bits_of_bytes bytes.now) }
{
    let mut register = crc;
    for byte in bytes {
        register = update_bits(register, *byte, 8);
    }
    register
}

// The checksum of a frame whose join flags and scale factors take `side_bits` bits: bytes 1 and 2, then those bits from byte 4 on.
// Of a frame that ends before them it covers what is there: a part ends where the frame does.
pub fn checksum(frame: &[u8], side_bits: usize) -> u8
    ensures { result ≡ checksum frame.now side_bits }
{
    let length = frame.len();
    let from = length.min(1);
    let to = length.min(3);
    let header = update(START, &frame[from..to]);
    let side = length.min(4);
    let end = length.min(4 + side_bits / 8);
    let whole = update(header, &frame[side..end]);
    if end < length {
        return update_bits(whole, frame[end], (side_bits % 8) as u32);
    }
    whole
}

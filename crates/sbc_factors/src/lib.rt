// The scale factors of a frame: of each subband, by its greatest sample.
#![tactic(auto)]

ghost use Rattle.std.specs.Prelude.{◌≡◌, ◌<◌, [], get_or, max, nat_abs};
ghost use Rattle.sbc_frame.specs.Encoding.{sample_at};
ghost use Rattle.sbc_factors.specs.Factors.{maxima_in, raised, factors_in};

use sbc_frame::{BlockCount, Blocks};
use sbc_quantizer::scale_factor;
use std::array;

// The greatest absolute values of the subbands, with those of one block more.
// Kept: the block by its number, and a closure that says what it gives, so that a sample of another place is refused by a fact.
fn raise(top: &[u32; 8], samples: &Blocks, block: usize) -> [u32; 8]
    requires { block < 16 }
    ensures { result ≡ raised top.now (get_or samples.now.rows block []) }
{
    array::from_fn(
        |s: usize| -> u32
            requires { (s < 8) × (block < 16) }
            ensures { result ≡ max (get_or top.entry.now s 0) (nat_abs (sample_at samples.entry.now.rows block s)) }
        { top[s].max(samples.rows[block][s].unsigned_abs()) },
    )
}

// The greatest absolute value of each subband.
#[tactic(auto, using(crate::proofs::Factors::maxima_none, crate::proofs::Factors::maxima_next))]
fn maxima(samples: &Blocks, blocks: BlockCount) -> [u32; 8]
    ensures { result ≡ maxima_in blocks.count samples.now.rows }
{
    let mut top = [0u32; 8];
    for block in 0..blocks.count {
        top = raise(&top, samples, block);
    }
    top
}

// The scale factor of each subband.
pub fn factors_of(samples: &Blocks, blocks: BlockCount) -> [u8; 8]
    ensures { result ≡ factors_in blocks.count samples.now.rows }
{
    let top = maxima(samples, blocks);
    array::from_fn(|s| scale_factor(top[s]))
}

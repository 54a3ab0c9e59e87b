// What is coded of a frame, of its channels' subband samples: join flags, scale factors and samples.
#![tactic(auto)]

ghost use Rattle.std.specs.Prelude.{◌≡◌};
ghost use Rattle.sbc_frame.specs.Arrays.{rows_of};
ghost use Rattle.sbc_code.specs.Coding.{coded, factor_rows, picked_rows, plain_coding, joint_coding, coding_of};

use sbc_factors::factors_of;
use sbc_frame::{BlockCount, Blocks, CodedFrame, Factors};
use sbc_join::{join, join_flags, pick, pick_samples};
use sbc_parameters::AcceptedSet;

// The scale factors of channels with these samples.
#[tactic(auto, using(crate::proofs::Chosen::factors_low, crate::proofs::Chosen::factors_are))]
fn both_factors(samples: &[Blocks; 2], blocks: BlockCount) -> Factors
    ensures { result.rows ≡ factor_rows blocks.count (rows_of samples.now) }
{
    Factors {
        rows: [
            factors_of(&samples[0], blocks),
            factors_of(&samples[1], blocks),
        ],
    }
}

// The joined scale factors where a flag is set.
#[tactic(auto, using(crate::proofs::Chosen::picked_are))]
fn pick_factors(flags: &[u8; 8], plain: &Factors, joined: &Factors) -> Factors
    ensures { result.rows ≡ picked_rows flags.now plain.now.rows joined.now.rows }
{
    Factors {
        rows: [
            pick(flags, plain.rows[0], joined.rows[0]),
            pick(flags, plain.rows[1], joined.rows[1]),
        ],
    }
}

// The channels as they are.
#[tactic(auto, unfolding(crate::specs::Coding::plain_coding))]
fn code_plain(accepted: AcceptedSet, samples: &[Blocks; 2]) -> CodedFrame
    ensures { coded result ≡ plain_coding accepted.set samples.now }
{
    CodedFrame {
        flags: [0; 8],
        factors: both_factors(samples, BlockCount::from(accepted)),
        samples: *samples,
    }
}

// Sum and difference in place of the channels where that takes smaller scale factors.
#[tactic(auto, using(crate::proofs::Chosen::flags_low))]
fn code_joint(accepted: AcceptedSet, samples: &[Blocks; 2]) -> CodedFrame
    ensures { coded result ≡ joint_coding accepted.set samples.now }
{
    let blocks = BlockCount::from(accepted);
    let joined = join(samples);
    let plain_factors = both_factors(samples, blocks);
    let joined_factors = both_factors(&joined, blocks);
    let flags = join_flags(
        &plain_factors,
        &joined_factors,
        usize::from(accepted.set.subbands),
    );
    let mut picked = *samples;
    pick_samples(&mut picked[0], &joined[0], &flags, blocks);
    pick_samples(&mut picked[1], &joined[1], &flags, blocks);
    CodedFrame {
        flags,
        factors: pick_factors(&flags, &plain_factors, &joined_factors),
        samples: picked,
    }
}

// What is coded of a frame whose channels have these samples.
#[tactic(auto, unfolding(crate::specs::Coding::coding_of))]
pub fn code(accepted: AcceptedSet, samples: &[Blocks; 2]) -> CodedFrame
    ensures { coded result ≡ coding_of accepted.set samples.now }
{
    if accepted.set.join_count() == 0 {
        return code_plain(accepted, samples);
    }
    code_joint(accepted, samples)
}

// The analysis and synthesis filterbanks of SBC. Their definitions stand in specs/, and the laws of these in proofs/. Here are what either
// filterbank remembers from block to block, the channel of PCM that either reads or writes, and the sum of products that both take. The
// code that analyzes and synthesizes a block is in the crates sbc_analyze, sbc_modulate and sbc_synthesize.
#![tactic(auto)]

pub mod analysis;
pub mod channel;
pub mod matrices;
pub mod synthesis;

pub use analysis::Analysis;
pub use channel::PcmChannel;
pub use matrices::products;
pub use synthesis::{Synthesis, advance};

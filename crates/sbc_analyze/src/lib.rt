// The analysis filterbank of SBC, block by block.
#![tactic(auto)]

pub mod analysis;
mod matrices;

pub use analysis::{analyze, analyze_by};
pub use matrices::AnalysisBank;

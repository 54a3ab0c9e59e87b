// No code: proofs of thin calls on a state that is lent by `&mut`, for any state, by a walk of their code. No crate cites them: the check proves such
// calls by itself.
#![tactic(auto)]

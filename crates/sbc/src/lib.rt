// The SBC and mSBC codec as a whole. Its calls are those of the crates sbc_decoder and sbc_encoder; specs/ says what holds of every call,
// what it answers and what it leaves, and of whole lists of calls, that in dual channel one channel's sound never depends on the other's
// PCM; proofs/ proves it.
#![tactic(auto)]

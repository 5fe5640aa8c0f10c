//! Re-exports the names of the standard library that proofs cite, in `proofs/Lib.antt`. The crate `proof_prelude`
//! contains no code, only names for proofs.
#![tactic(auto)]

//! The rules of WGSL's types: definitions in `specs/`, laws over them in `proofs/`, and no code.
#![tactic(auto)]

//! The definitions that the crates above cite: bits and bytes, the frame check sequence, frames,
//! sources and sinks. All are in `specs/`, and lemmas on them in `proofs/`.
#![tactic(auto)]

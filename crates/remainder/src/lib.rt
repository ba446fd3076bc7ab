// What the checksum's polynomial leaves of a number, bit by bit. This crate has definitions and proofs
// and no functions.
#![tactic(auto)]

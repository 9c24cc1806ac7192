// This driver's reasons for an abort beside the Rust's, of every call of the master:
// specs/Reasons.antt has the statements, proofs/ the theorems.
#![tactic(auto)]

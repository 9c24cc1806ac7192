// The worked examples of docs/MANUAL.md, (a) to (j), proved:
// specs/Rows.antt has the rows, proofs/Examples.antt the theorem.
#![tactic(auto)]

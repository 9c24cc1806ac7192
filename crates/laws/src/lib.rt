// What holds of every public call of the clock, the master and the slave:
// specs/Left.antt and specs/Causes.antt have the statements, proofs/ the theorems.
#![tactic(auto)]

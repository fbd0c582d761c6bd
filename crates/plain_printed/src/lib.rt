// Document 01, "Scripts and the two programs" and "Demand 3": what `sweep` and `judge` print of a script is said by plain runs. The
// sentences are in specs/Printed.antt, the theorem in proofs/Whole.antt. There is no code here.
#![tactic(auto)]

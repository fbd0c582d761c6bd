// Document 01, "Demand 3": a list of calls through the session is the plain run. The theorem is `same` in proofs/Same.antt; its
// statement is in specs/Claim.antt. There is no code here.
#![tactic(auto)]

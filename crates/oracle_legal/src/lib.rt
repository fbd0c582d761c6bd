// What a verdict 0 means, said without the verdict. The sentences are in specs/Legal.antt and specs/Acceptance.antt, the theorem in
// proofs/Acceptance.antt. There is no code here.
#![tactic(auto)]

// Document 01, "Demand 3": what `start`, `ledger`, `verify_oracle` and `replay` answer. The sentences are in specs/Replies.antt, the
// theorems in proofs/Whole.antt. There is no code here.
#![tactic(auto)]

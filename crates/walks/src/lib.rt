// What proofs by hand of functions on references to structs have in common: such a proof is a walk of the function's code. Rattle
// covers these references itself by now, so no proof of this repository cites the lemmas. There is no code here, and nothing that
// names another crate. The laws assume what every walk is given (`Given`, and `Tables` where there are calls or loops).
#![tactic(auto)]

// Document 01's fixed examples that are marked P: one theorem of the definitions, `fixed-examples` in proofs/Fixed.antt,
// whose statement is in specs/Fixed.antt, and beside it `lowest-first`, an order that no example shows. There is no code here. The
// examples without a P are run by the programs NAME_cases.
#![tactic(auto)]

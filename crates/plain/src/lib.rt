// The plain run of document 01, "Demand 3", and the theorems about it. There is no code here.
#![tactic(auto)]

// What the programs `sweep` and `judge` print is the text of document 01: theorems over the definitions that the contracts of the
// called functions cite. There is no code here.
#![tactic(auto)]

// The runs of a sweep and what the two programs print, as definitions: specs/Sweep.antt has every run from a script's bytes,
// specs/Decided.antt the look at the script that decides 26. proofs/Decided.antt has the theorem that the two agree, and
// proofs/Examples.antt computes document 01's worked example. This crate holds definitions and theorems only: the code is in
// `armed_runs` (what is armed in each run), `harness` (a sweep opened), `harness_runs` (its runs), `held` (a run held to the
// fault-free one), and `lines` and `sweep_lines` (the text).
#![tactic(auto)]

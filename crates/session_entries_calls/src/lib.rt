// How a session's promises carry over to a log of entries: what a call records in the columns is one entry stored at the count. The
// claims are on one page, specs/CarriesOver.antt; the proof is `carries_over` in proofs/Page.antt. There is no code here.
#![tactic(auto)]

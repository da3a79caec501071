// The soundness check as a pure function (specs/), and that it is exact (proofs/). No function stands here.
#![tactic(auto)]

// Laws of the packing: see proofs/. No function stands here.
#![tactic(auto)]

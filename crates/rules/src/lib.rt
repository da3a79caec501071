// The rules are definitions: see specs/. No function stands here.
#![tactic(auto)]

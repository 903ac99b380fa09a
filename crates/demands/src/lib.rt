// The demands, stated and proved over the crates below; there is no code here.
#![tactic(auto)]

// No functions: what proofs by hand share stands in proofs/.

#![tactic(auto)]

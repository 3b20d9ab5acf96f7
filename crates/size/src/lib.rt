// How much longer than its card an output can be: the theorems stand in proofs/.
#![tactic(auto)]

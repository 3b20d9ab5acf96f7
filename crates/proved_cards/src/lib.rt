// The cards that document 01 states, and what shortening makes of them: the table stands in specs/, the claim over it in proofs/.
#![tactic(auto)]

// What demand 3 says of a card, a root and an output: the definitions stand in specs/.
#![tactic(auto)]

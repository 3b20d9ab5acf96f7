// The changed points of a card and its output: the definitions stand in specs/.
#![tactic(auto)]

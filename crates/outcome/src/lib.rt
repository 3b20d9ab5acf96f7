// The whole answer to a call of shortening: the definitions stand in specs/.
#![tactic(auto)]

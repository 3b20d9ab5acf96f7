// Records, their kinds and how they are read: the definitions stand in specs/.
#![tactic(auto)]

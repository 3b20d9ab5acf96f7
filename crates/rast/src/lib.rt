// The Dafny text's RAST over records: the definitions stand in specs/.
#![tactic(auto)]

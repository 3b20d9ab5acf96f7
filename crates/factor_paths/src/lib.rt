// The Dafny text's FactorPathsOptimization over records: the definitions stand in specs/.
#![tactic(auto)]

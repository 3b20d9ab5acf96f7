// RAST and FactorPathsOptimization as typed datatypes, line by line: the transcription stands in specs/, the theorems in proofs/. No code depends on it.
#![tactic(auto)]

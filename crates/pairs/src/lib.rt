// No code: what a table of pairs is, as bytes and as a mapping. specs/ has the definitions, proofs/ the laws.
#![tactic(auto)]

// No code: what is written of a record, whatever its bytes, by a module's table. specs/ has the definitions, proofs/ the laws.
#![tactic(auto)]

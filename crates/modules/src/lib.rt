// No code: what is written of a module and of those in it, by the tables that the work words hold in turn. specs/ has the definitions, proofs/ the laws.
#![tactic(auto)]

// No code: collecting over the bytes of a card, as a definition over any accumulator, and what a module's table means. specs/ has the definitions, proofs/ the laws.
#![tactic(auto)]

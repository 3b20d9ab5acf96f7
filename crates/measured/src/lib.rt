// No code: over a sound card, what `measuring` writes is the definition's output. proofs/ has the laws.
#![tactic(auto)]

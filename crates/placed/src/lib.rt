// No code: over a sound card, what `placing` writes and lists is the definition's output with its list. proofs/ has the laws.
#![tactic(auto)]

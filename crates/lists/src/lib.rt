// Definitions and laws on lists, for the specifications and proofs of every layer. No code.
#![tactic(auto)]

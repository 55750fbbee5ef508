// The ceilings of a treap's ranks, of the blocks that a search meets and of the keys that blocks hold. No code.
#![tactic(auto)]

// The structure theorems: what the literal definitions of `treap` amount to, for the code above. No code.
#![tactic(auto)]

// The literal definitions of treap, levels, blocks, slots and image, with document 01's examples. No code.
#![tactic(auto)]

// Laws for proofs by hand, of functions over structs that are lent. No code.
#![tactic(auto)]

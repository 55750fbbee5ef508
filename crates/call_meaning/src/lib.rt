// What each call replies and leaves behind, as definitions, and laws of them. No code.
#![tactic(auto)]

// Whole histories of calls over one table, the book that is kept of them, and what holds of the two. No code.
#![tactic(auto)]

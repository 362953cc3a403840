// What a call reads: two tables that it can't tell apart, and the laws that it does the same on both. There is no code.
#![tactic(auto)]

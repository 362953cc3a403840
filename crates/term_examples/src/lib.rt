// How long leases last, worked out by hand: definitions and the laws of their tables. There is no code.
#![tactic(auto)]

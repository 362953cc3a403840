// The worked examples of document 01, the order of its checks, and reasons worked out by hand: definitions and the laws of
// their tables. There is no code.
#![tactic(auto)]

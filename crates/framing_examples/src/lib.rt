// Frames (02, Item 9), worked out by hand: definitions and the laws of their tables. There is no code.
#![tactic(auto)]

// The map of the connections beside the tables: definitions and laws. There is no code.
#![tactic(auto)]

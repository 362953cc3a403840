// What every run of the relay from a fresh start keeps: definitions and laws. There is no code.
#![tactic(auto)]

// The journal (02, Item 8): definitions and laws alone. Crates journal_records, journal_reader, replay_parts, levels, replay and replay_plain have the code.
#![tactic(auto)]

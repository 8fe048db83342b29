// Rounds over a table of gaps: definitions and theorems without code.
#![tactic(auto)]

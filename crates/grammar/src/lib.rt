// The grammar of the two texts: definitions and theorems without code.
#![tactic(auto)]

// The job that the notes of two texts hold: definitions and theorems without code.
#![tactic(auto)]

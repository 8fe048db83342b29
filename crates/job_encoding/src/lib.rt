// The bytes of a job file: definitions and theorems without code.
#![tactic(auto)]

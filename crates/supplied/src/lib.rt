// The job that a supplier's two texts describe: definitions without code.
#![tactic(auto)]

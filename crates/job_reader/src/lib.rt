// The reader of a job: its fields and records, read from the caller's own bytes.
#![tactic(auto)]

pub mod fields;
pub mod laid;
pub mod reader;
pub mod records;

// The job file: its layout, and the readers of its fields.
#![tactic(auto)]

pub mod layout;
pub mod records;

// Order files: where they hold what they say, the table of gaps that they are written from, and their writer.
#![tactic(auto)]

pub mod layout;
pub mod table;
pub mod write;

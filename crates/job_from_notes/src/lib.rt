// A job's file from the notes of two texts: how many records they bring, and the job's bytes.
#![tactic(auto)]

mod brought;
mod entries;
pub mod file;
mod noted;
mod opening;
pub mod tally;

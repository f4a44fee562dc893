// Rosters: lists of crews and sites laid down in blocks of bytes, and how they are read.
#![tactic(auto)]

mod blocks;
mod fields;
mod halves;
mod heads;
pub mod reader;
mod reading;
mod returns;
pub mod rosters;
mod rows;
mod spans;

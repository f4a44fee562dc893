// Lists of drive crews and radio sites: who ranks whom, and what a call may refuse.
#![tactic(auto)]

pub mod faults;
pub mod flips;
pub mod interface;
pub mod parties;
pub mod rings;
mod words;

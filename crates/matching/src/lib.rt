// Plans over lists of crews and sites.
#![tactic(auto)]

pub mod checks;
mod copies;
mod crews;
mod limits;
mod plans;
mod proposals;
mod roles;
pub mod settled;
pub mod stable;
pub mod two_levels;

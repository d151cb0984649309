// What filing reads of a library: its records in ascending order of code, and their profiles.
#![tactic(auto)]

pub mod codes; // codes.rt: the records in ascending order of code
pub mod wells; // wells.rt: a profile copied out of an image's bytes

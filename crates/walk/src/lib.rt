// The walk down a library's tree: laid out once, then stepped or skipped through for each plate.
#![tactic(auto)]

pub mod laid; // laid.rt: an accepted library with its tree laid out
mod lay; // lay.rt: laying it out
mod links; // links.rt: each record's children
pub mod passage; // passage.rt: a plate's way down the tree
pub mod step; // step.rt: a place of the walk

// Lists in ascending order.
#![tactic(auto)]

pub mod asked; // asked.rt: how many strains are asked for
pub mod best; // best.rt: the running list of the best
pub mod found; // found.rt: distance and code in one number
pub mod sort; // sort.rt: numbers sorted in place

// Profiles and distances: wells, the two metrics, the distance of any two profiles, and the fitting level.
#![tactic(auto)]

pub mod distance; // distance.rt: the distance of any two profiles
pub mod level; // level.rt: the fitting level of a distance
pub mod metric; // metric.rt: the two metrics
pub mod source; // source.rt: what a profile can be read from
pub mod well; // well.rt: one well, read from its bytes
pub mod written_out; // written_out.rt: a metric and a width that the compiler knows

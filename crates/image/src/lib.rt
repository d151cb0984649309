// The bytes of a library: its fields, and the refusals that calls on it give.
#![tactic(auto)]

pub mod accepted; // accepted.rt: an accepted library, with its header read
pub mod bytes; // bytes.rt: little-endian numbers
pub mod header; // header.rt: the fields of the header
pub mod node; // node.rt: the level of a record
pub mod records; // records.rt: the records of an image that has room for them
pub mod refusal; // refusal.rt: why a call is refused, and at which records
pub mod shape; // shape.rt: so many strains of so many wells, under a metric

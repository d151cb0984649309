// A library's fields, written: the header, a record, and room made for one record more.
#![tactic(auto)]

pub mod header; // header.rt
pub mod number; // number.rt: little-endian numbers
pub mod record; // record.rt: a record's node and profile
pub mod widen; // widen.rt: profiles moved up by 8 bytes

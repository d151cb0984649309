// Document 01's rules for starting a library, adding a strain and filing, in a library's bytes. Nothing is refused here: who calls has seen
// that the strain may be added and that there is room.
#![tactic(auto)]

pub mod begin; // begin.rt: a library begun with its root
pub mod filing; // filing.rt: strains filed in order of code
pub mod grow; // grow.rt: one strain more in a library's buffer
mod hang; // hang.rt: a strain hung into the tree
pub mod seat; // seat.rt: the record that takes a new strain
pub mod strain; // strain.rt: a strain that a library is to have
pub mod takers; // takers.rt: the records that are near enough to take it

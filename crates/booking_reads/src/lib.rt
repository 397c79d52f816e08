// What the ledger reports of one booking from its own words and those of its ancestry and rivals. Each function answers what the
// law's definition of the same name says, and changes nothing.
#![tactic(auto)]

pub mod booking;
pub mod lead;
pub mod size;

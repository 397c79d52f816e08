// Is a row of the workspace in order: the header, a record or a slot entry.
// That the words have n bookings is asked for in each contract: these functions are public, and a type that says so would ask more of callers.
#![tactic(auto)]

pub mod entry;
pub mod header;
pub mod record;

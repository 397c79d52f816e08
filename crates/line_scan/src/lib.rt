// The words after the first: the next one, numbers, votes, and lists of them. What each means is in specs/.
#![tactic(auto)]

pub mod many;
pub mod step;

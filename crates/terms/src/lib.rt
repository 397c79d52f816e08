// THE WORDS OF THE LAW, as code sees them: the types that every crate above shares, and what reads them. What each means is in specs/.
#![tactic(auto)]

pub mod answer;
pub mod edition;
pub mod form;
pub mod setting;
pub mod vote;

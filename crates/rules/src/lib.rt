// THE LAW. What code shares of it is where each word stands; the rules are in specs/, in the order of document 01.
#![tactic(auto)]

pub mod layout;

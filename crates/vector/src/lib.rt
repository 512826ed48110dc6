// A case of an operator from outside: what the library answers, whether that is what is expected, and the tally.
#![tactic(auto)]

pub mod tally;
pub mod working;

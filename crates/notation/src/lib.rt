// How cases from outside are written, and read.
#![tactic(auto)]

pub mod reading;

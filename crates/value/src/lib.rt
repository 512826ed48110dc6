// Values of the relay's program: numbers, pointers into regions, parts of pointers, and undefined values.
#![tactic(auto)]

pub mod makes;
pub mod rows;
pub mod text;
pub mod values;
pub mod views;

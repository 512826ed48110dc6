// The instructions of a model, the tables that hold them, and how an instruction is found by its address.
#![tactic(auto)]

pub mod lookup;
pub mod parts;
pub mod tables;

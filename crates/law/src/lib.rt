// What holds of the values and operators.
#![tactic(auto)]

pub mod theorems;

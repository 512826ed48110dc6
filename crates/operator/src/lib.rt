// The operators on values: two operands by one list of rules, and the operators on bits.
#![tactic(auto)]

pub mod binary;
pub mod bits;
pub mod ops;
pub mod unary;
mod words;

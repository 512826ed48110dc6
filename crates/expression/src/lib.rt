// Expressions: the nodes of a table, and the one walk over them that serves every arithmetic.
#![tactic(auto)]

pub mod arithmetic;
pub mod heights;
pub mod nodes;
mod stack;
pub mod stops;
pub mod walks;
pub mod widths;

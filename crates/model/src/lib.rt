// The check of a model's tables, and the passed model.
#![tactic(auto)]

mod depths;
pub mod judging;
pub mod models;
pub mod objections;
pub mod theorems;

// The closed lists of answers that every layer gives: faults of a run, refusals of a call, and where a machine stands; and
// `require`, a rule with its error.
#![tactic(auto)]

pub mod faults;
pub mod refusals;
pub mod rules;
pub mod standings;

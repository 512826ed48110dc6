// Tests of the check and of the walk: every refusal with its place, the order of the rules, each limit and one above it.
// What they expect is worked out by hand from the rules.
#![tactic(auto)]

#[cfg(test)]
mod limits;
#[cfg(test)]
mod order;
#[cfg(test)]
mod places;
#[cfg(test)]
mod refusals;
#[cfg(test)]
mod samples;
#[cfg(test)]
mod walks;

// Tests of the values and operators at the narrowest and the widest, and one past each limit. What they expect is worked
// out by hand from the rules.
#![tactic(auto)]

#[cfg(test)]
mod operators;
#[cfg(test)]
mod reads;
#[cfg(test)]
mod texts;
#[cfg(test)]
mod values;

//! Tests of calls that no words of the program, no case and no script reach. What each is to answer
//! comes from the rules, or was worked out by hand.
#![tactic(auto)]

#[cfg(test)]
mod ends;
#[cfg(test)]
mod held;
#[cfg(test)]
mod samples;
#[cfg(test)]
mod snapshots;
#[cfg(test)]
mod tables;
#[cfg(test)]
mod values;

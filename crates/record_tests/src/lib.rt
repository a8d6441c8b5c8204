//! Tests of the records and of what is printed of them.
#![tactic(auto)]

#[cfg(test)]
mod examples;
#[cfg(test)]
mod printing;
#[cfg(test)]
mod reading;
#[cfg(test)]
mod samples;
#[cfg(test)]
mod telling;
#[cfg(test)]
mod writing;

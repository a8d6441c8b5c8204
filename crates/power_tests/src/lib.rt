//! Tests of the power models and of what is told of their faults.
#![tactic(auto)]

#[cfg(test)]
mod cube;
#[cfg(test)]
mod examples;
#[cfg(test)]
mod floor;
#[cfg(test)]
mod loading;
#[cfg(test)]
mod samples;
#[cfg(test)]
mod telling;

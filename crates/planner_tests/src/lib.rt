//! Tests of the planner: small books with settings that a search found, full ones, lists that no settings are made
//! for, and critical blocks.
#![tactic(auto)]

#[cfg(test)]
mod blocks;
#[cfg(test)]
mod examples;
#[cfg(test)]
mod full;
#[cfg(test)]
mod refused;
#[cfg(test)]
mod samples;
#[cfg(test)]
mod small;

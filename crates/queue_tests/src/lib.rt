//! Tests of the queue: its order against a sort and a plain list, its slots at their edges, what its refusal tells,
//! the examples of its calls, and an element type of another crate.
#![tactic(auto)]

#[cfg(test)]
mod examples;
#[cfg(test)]
mod order;
#[cfg(test)]
mod other;
#[cfg(test)]
mod slots;

//! Tests of the book: each refusal at its edges, the order of the open jobs, overloads against a search of another
//! kind, settings, bills, sums of draws, ticks, critical blocks, images and which of their records is wrong, what is
//! told of its faults, what `{:?}` shows of it, and the examples that stand at its calls and at those of a life.
#![tactic(auto)]

#[cfg(test)]
mod bill;
#[cfg(test)]
mod blocks;
#[cfg(test)]
mod examples;
#[cfg(test)]
mod fields;
#[cfg(test)]
mod images;
#[cfg(test)]
mod overload;
#[cfg(test)]
mod places;
#[cfg(test)]
mod samples;
#[cfg(test)]
mod shown;
#[cfg(test)]
mod sum;
#[cfg(test)]
mod telling;
#[cfg(test)]
mod ticks;

//! Tests of maps for text from outside: their calls by queries, their seeds, and how they are closed and
//! opened again.
#![tactic(auto)]

#[cfg(test)]
mod asserts;
#[cfg(test)]
mod calls;
#[cfg(test)]
mod closing;
#[cfg(test)]
mod examples;
#[cfg(test)]
mod insertions;
#[cfg(test)]
mod seeds;

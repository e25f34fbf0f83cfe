//! Tests of bulk operations on a map that lives: at rest, while it grows, while others write, and
//! where they fail.
#![tactic(auto)]

#[cfg(test)]
mod at_rest;
#[cfg(test)]
mod examples;
#[cfg(test)]
mod growing;
#[cfg(test)]
mod ordered;
#[cfg(test)]
mod parts;
#[cfg(test)]
mod refused;
#[cfg(test)]
mod samples;
#[cfg(test)]
mod teams;
#[cfg(test)]
mod writers;

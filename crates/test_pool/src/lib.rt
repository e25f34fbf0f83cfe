//! Tests of trees of completers, of runs of the pool, and of bulk operations, by what each has for
//! its callers.
#![tactic(auto)]

#[cfg(test)]
mod asked;
#[cfg(test)]
mod bulk;
#[cfg(test)]
mod closed;
#[cfg(test)]
mod counting;
#[cfg(test)]
mod examples;
#[cfg(test)]
mod finds;
#[cfg(test)]
mod gates;
#[cfg(test)]
mod races;
#[cfg(test)]
mod refused;
#[cfg(test)]
mod runs;
#[cfg(test)]
mod samples;
#[cfg(test)]
mod settling;
#[cfg(test)]
mod sizes;
#[cfg(test)]
mod tasks;
#[cfg(test)]
mod trees;

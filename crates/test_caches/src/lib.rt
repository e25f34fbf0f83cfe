//! Tests of a bounded cache: what its calls return, which entries go, deadlines, counts, the bound, the
//! hit rate, and memory.
#![tactic(auto)]

#[cfg(test)]
mod asserts;
#[cfg(test)]
mod calls;
#[cfg(test)]
mod deadlines;
#[cfg(test)]
mod evictions;
#[cfg(test)]
mod examples;
#[cfg(test)]
mod hit_rate;
#[cfg(test)]
mod passed;
#[cfg(test)]
mod read_through;
#[cfg(test)]
mod refusals;
#[cfg(test)]
mod threads;

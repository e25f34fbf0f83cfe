//! Tests of the map with keys, values, functions and allocators that count what they are asked, run
//! out of memory, or wait for other threads.
#![tactic(auto)]

#[cfg(test)]
mod asked;
#[cfg(test)]
mod asserts;
#[cfg(test)]
mod away;
#[cfg(test)]
mod closing;
#[cfg(test)]
mod counted;
#[cfg(test)]
mod counts;
#[cfg(test)]
mod growing;
#[cfg(test)]
mod helping;
#[cfg(test)]
mod kinds;
#[cfg(test)]
mod leaks;
#[cfg(test)]
mod lent;
#[cfg(test)]
mod maps;
#[cfg(test)]
mod room;
#[cfg(test)]
mod seeking;
#[cfg(test)]
mod skipping;
#[cfg(test)]
mod slices;
#[cfg(test)]
mod steps;
#[cfg(test)]
mod texts;
#[cfg(test)]
mod trying;
#[cfg(test)]
mod twelve;
#[cfg(test)]
mod waiting;
#[cfg(test)]
mod words;

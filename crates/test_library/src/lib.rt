//! Tests of the library as a program meets it: typed calls, teams and their answers, moments, keys
//! and functions that are ready to use.
#![tactic(auto)]

#[cfg(test)]
mod answers;
#[cfg(test)]
mod asserts;
#[cfg(test)]
mod boxes;
#[cfg(test)]
mod bucket_lengths;
#[cfg(test)]
mod closed;
#[cfg(test)]
mod examples;
#[cfg(test)]
mod filling;
#[cfg(test)]
mod finding;
#[cfg(test)]
mod in_place;
#[cfg(test)]
mod inserting;
#[cfg(test)]
mod keys;
#[cfg(test)]
mod lending;
#[cfg(test)]
mod letters;
#[cfg(test)]
mod lists;
#[cfg(test)]
mod live;
#[cfg(test)]
mod meeting;
#[cfg(test)]
mod moments;
#[cfg(test)]
mod printing;
#[cfg(test)]
mod refused;
#[cfg(test)]
mod replacing;
#[cfg(test)]
mod retains;
#[cfg(test)]
mod shown;
#[cfg(test)]
mod slices;
#[cfg(test)]
mod teams;
#[cfg(test)]
mod updates;
#[cfg(test)]
mod whole;

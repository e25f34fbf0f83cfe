//! Tests of keys, bins, ledgers and moves, by what these crates make public, and of what stands where
//! memory is refused.
#![tactic(auto)]

#[cfg(test)]
mod asserts;
#[cfg(test)]
mod bins;
#[cfg(test)]
mod chains;
#[cfg(test)]
mod composites;
#[cfg(test)]
mod held;
#[cfg(test)]
mod helpers;
#[cfg(test)]
mod keys;
#[cfg(test)]
mod keys_of_bytes;
#[cfg(test)]
mod ledgers;
#[cfg(test)]
mod limits;
#[cfg(test)]
mod made;
#[cfg(test)]
mod moments;
#[cfg(test)]
mod moves;
#[cfg(test)]
mod number_seeds;
#[cfg(test)]
mod plain;
#[cfg(test)]
mod refusals;
#[cfg(test)]
mod rows;
#[cfg(test)]
mod seeded;
#[cfg(test)]
mod settling;
#[cfg(test)]
mod turns;
#[cfg(test)]
mod twins;
#[cfg(test)]
mod updates;

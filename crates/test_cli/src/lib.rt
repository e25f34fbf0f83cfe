//! Tests of the program: texts that are scripts, and the faults of those that are none; runs of
//! scripts, from bytes to bytes; its command line, how ends of runs are told, and readers, writers and
//! requests for memory that fail.
#![tactic(auto)]

#[cfg(test)]
mod clients;
#[cfg(test)]
mod devices;
#[cfg(test)]
mod limits;
#[cfg(test)]
mod orders;
#[cfg(test)]
mod queries;
#[cfg(test)]
mod samples;
#[cfg(test)]
mod scripts;
#[cfg(test)]
mod texts;
#[cfg(test)]
mod words;

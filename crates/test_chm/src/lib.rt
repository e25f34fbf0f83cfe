//! Tests of the map by what it makes public: its calls, growth, loads, moments, opening and
//! closing, readings, refused requests and threads.
#![tactic(auto)]

#[cfg(test)]
mod ample;
#[cfg(test)]
mod call_examples;
#[cfg(test)]
mod calls;
#[cfg(test)]
mod closed;
#[cfg(test)]
mod cursors;
#[cfg(test)]
mod examples;
#[cfg(test)]
mod filling_given;
#[cfg(test)]
mod given;
#[cfg(test)]
mod growth;
#[cfg(test)]
mod lent_examples;
#[cfg(test)]
mod lines;
#[cfg(test)]
mod live_examples;
#[cfg(test)]
mod loads;
#[cfg(test)]
mod maps;
#[cfg(test)]
mod memory;
#[cfg(test)]
mod modify_tries;
#[cfg(test)]
mod modifying;
#[cfg(test)]
mod moment_examples;
#[cfg(test)]
mod moves;
#[cfg(test)]
mod numbers;
#[cfg(test)]
mod opening;
#[cfg(test)]
mod part_steps;
#[cfg(test)]
mod plays;
#[cfg(test)]
mod printed;
#[cfg(test)]
mod reading;
#[cfg(test)]
mod refused;
#[cfg(test)]
mod refused_parts;
#[cfg(test)]
mod retaining;
#[cfg(test)]
mod retains;
#[cfg(test)]
mod rosters;
#[cfg(test)]
mod rows;
#[cfg(test)]
mod runs;
#[cfg(test)]
mod shown;
#[cfg(test)]
mod sizes;
#[cfg(test)]
mod steps;
#[cfg(test)]
mod threads;
#[cfg(test)]
mod trying;
#[cfg(test)]
mod updating;
#[cfg(test)]
mod viewing;
#[cfg(test)]
mod walking;

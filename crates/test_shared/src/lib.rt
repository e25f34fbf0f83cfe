//! Tests of shared maps and their clients, as programs use them whose threads come and go: calls that
//! lend or give a value, functions that fail, and what is left where a client is full or memory is
//! refused.
#![tactic(auto)]

#[cfg(test)]
mod asserts;
#[cfg(test)]
mod both;
#[cfg(test)]
mod crowds;
#[cfg(test)]
mod fallible;
#[cfg(test)]
mod full;
#[cfg(test)]
mod given_back;
#[cfg(test)]
mod maps;
#[cfg(test)]
mod modifying;
#[cfg(test)]
mod owners;
#[cfg(test)]
mod places;
#[cfg(test)]
mod shared;
#[cfg(test)]
mod trying;

//! Tests of the two stores of bins: places for recorded bins, and homes of lean ones.
#![tactic(auto)]

#[cfg(test)]
mod calls;
#[cfg(test)]
mod lean;
#[cfg(test)]
mod recorded;

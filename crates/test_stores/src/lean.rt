//! Tests of lean homes.
mod maps;
mod moves;
mod sizes;
mod threads;

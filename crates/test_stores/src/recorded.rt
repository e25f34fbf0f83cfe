//! Tests of the bins of a map in their places: walks, moves, refused requests and threads.
mod maps;
mod refused;
mod sizes;
mod threads;
mod tries;
mod walks;

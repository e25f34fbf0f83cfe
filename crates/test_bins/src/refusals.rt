//! Tests of what stands where memory is refused: for each call, each of its requests in turn.
mod asked;
mod bins;
mod books;
mod folds;
mod growth;
mod refused;
mod samples;
mod trees;

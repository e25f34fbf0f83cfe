//! What a test may hold back while a script runs.
pub use steal_pool::{Gate, OpenGate};

/// What is called, besides, before each call of a client.
pub trait ClientGate: Gate {
    /// The client is about to make its call of this number, from 0.
    fn call(&self, client: usize, ordinal: u64);
}

impl ClientGate for OpenGate {
    fn call(&self, _client: usize, _ordinal: u64) {}
}

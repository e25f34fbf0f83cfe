//! Passes of a shared map, lent to what works on the map by many passes at once.
ghost use Rattle.std.specs.Prelude.{◌≡◌, ◌≤◌, All, IfErr, IfOk, length};

use crate::shared::SharedMap;
use bin_history::{Remap, Value};
use chm::{Fault, Pass};
use hashkeys::HashKey;
use std::alloc::Allocator;

impl<K: HashKey, V: Value, F: Remap<K, V>, A: Allocator + Clone> SharedMap<K, V, F, A> {
    /// Takes up to this many passes, as `client` takes one each: fewer where fewer are free, which may
    /// be none. The map does not close until `return_passes` has all of them back. It allocates the
    /// list, and waits for nobody.
    ///
    ///     let passes = map.lend_passes(4)?;
    ///     map.return_passes(passes);
    ///
    /// # Errors
    ///
    /// `NoMemory`: what was taken is back.
    pub fn lend_passes(&self, wanted: usize) -> Result<Vec<Pass<K, V, F>, A>, Fault>
        ensures own { IfOk result (λ v. All (λ p. p.ledger ≡ self.now.ledger.id) v.items) }
        ensures few { IfOk result (λ v. length v.items ≤ wanted) }
        ensures faults { IfErr result (λ fault. fault ≡ Fault.NoMemory) }
    {
        let alloc = self.pass_pool.allocator().clone()?;
        let mut passes = Vec::with_capacity(alloc, wanted)?;
        for _pass in 0..wanted {
            match self.pass_pool.take() {
                Ok(pass) => passes.push_reserved(pass),
                Err(Fault::NoClient) => break,
                Err(_) => {
                    self.return_passes(passes);
                    return Err(Fault::NoMemory);
                }
            }
        }
        Ok(passes)
    }

    /// Gives passes of the map back. A full one is not taken again. It takes time linear in their
    /// number, no memory, and waits for nobody.
    ///
    ///     map.return_passes(passes);
    pub fn return_passes(&self, mut passes: Vec<Pass<K, V, F>, A>)
        requires { All (λ p. p.ledger ≡ self.now.ledger.id) passes.items }
    {
        while let Some(pass) = passes.pop() {
            self.pass_pool.put_back(pass);
        }
        passes.destroy_empty();
    }
}

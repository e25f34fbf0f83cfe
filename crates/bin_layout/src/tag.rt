//! The name of a place.
use bin_history::Form;
use count_ledger::LedgerName;
use hashkeys::{Class, Salt};

/// What is fixed when a place is made: the class of its bin, the map's form and salt, and the map's
/// ledger in contracts alone.
#[derive(Drop)]
pub struct PlaceTag {
    pub class: Class,
    pub form: Form,
    pub salt: Salt,
    pub ledger: LedgerName,
}

//! Values in a table, each under a word of its own.
#![tactic(auto)]

mod held;
mod locked_slots;
mod terms;

pub use held::SlotGuard;
pub use locked_slots::{Glance, LockedSlots};
pub use terms::{Fits, Terms};

//! The books of a map: what each client made, what the role of each class of keys keeps, and a
//! count word for each lane of clients. A rule ties them together, and holds between any two atomic
//! steps.
#![tactic(auto)]

mod books;
mod books_by;
mod dealing;
mod laws;
mod ledger;
mod moment;
mod name;
mod order;
mod roster;
mod seats;
mod settling;
mod steps;
mod sums;
mod tokens;

pub use bin_history::{MOST_CALLS, MOST_CLIENTS, MOST_LEAN_CALLS, MOST_LEAN_CLIENTS};
pub use books_by::RoleBook;
pub use laws::{agreement_laws, laws_of_fronts, totals_of_all, words_of_sums};
pub use ledger::Ledger;
pub use moment::Moment;
pub use name::LedgerName;
pub use roster::Roster;
pub use settling::{Unsettled, UnsettledWith};
pub use tokens::{BinRole, Pass, retire_all};

//! The forms of a bin.

/// What a bin stores of its history. What is proved of a bin is the same in both forms.
#[derive(Clone, Copy, PartialEq, Eq, Debug)]
pub enum Form {
    /// A record of each call: the newest ones, 1,024 at most, and a base that the older ones were
    /// folded into.
    Recorded,
    /// No record, and no base but the entries.
    Lean,
}

//! The name of a ledger.
use crate::tokens::BinRole;
use boxcar::tag::{Names, Tag};
use hashkeys::HashKey;
use std::marker::Model;

/// Which ledger something is of, in contracts alone: it has no bytes, and a contract sees the
/// ledger's identity. It can stand in the tag of a lock or, as numbers, in that of an arena.
#[derive(Drop)]
pub struct LedgerName {
    tag: Tag,
}

impl Model for LedgerName {
    ghost use Rattle.count_ledger.specs.Views.{LedgerId};
    ghost use Rattle.count_ledger.specs.Names.{id_of};
    ghost use Rattle.atomic_table.specs.Seated.{table_id_coded};

    ghost Value = { LedgerId };

    ghost coded = { table_id_coded };

    ghost view = { λ n. id_of n.tag.numbers };
}

struct OfRole;

impl<K, V, F> Names<BinRole<K, V, F>> for OfRole {
    ghost use Rattle.count_ledger.specs.Names.{numbers_of};

    ghost numbers = { λ r. numbers_of r.ledger };
}

struct OfName;

impl Names<LedgerName> for OfName {
    ghost use Rattle.count_ledger.specs.Names.{numbers_of};

    ghost numbers = { λ n. numbers_of n };
}

impl LedgerName {
    ghost use Rattle.std.specs.Prelude.{◌≡◌};
    ghost use Rattle.count_ledger.specs.Names.{numbers_of};

    /// The name of the role's ledger.
    pub fn of<K, V, F>(role: &BinRole<K, V, F>) -> LedgerName
        ensures { result ≡ role.now.ledger }
    {
        LedgerName {
            tag: Tag::of::<BinRole<K, V, F>, OfRole>(role),
        }
    }

    /// Returns a copy of the name.
    pub fn again(&self) -> LedgerName
        ensures { result ≡ self.now }
    {
        LedgerName { tag: self.to_tag() }
    }

    /// The name as numbers.
    pub fn to_tag(&self) -> Tag
        ensures { result.numbers ≡ numbers_of self.now }
    {
        Tag::of::<LedgerName, OfName>(self)
    }
}

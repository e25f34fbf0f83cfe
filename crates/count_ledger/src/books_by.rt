//! Roles that lie by.
use crate::books::View;
use crate::tokens::BinRole;
use atomic_table::Badge;
use hashkeys::Class;
use std::marker::Model;

/// A role that lies by, or none, which stands in for one that was taken out of its place. It has no
/// bytes: whoever takes the role tells its class.
#[derive(Drop)]
pub struct RoleBook<K, V, F> {
    badge: Badge<View<K, V, F>>,
}

impl<K, V, F> Model for RoleBook<K, V, F> {
    ghost use Rattle.std.specs.Prelude.{Option};
    ghost use Rattle.count_ledger.specs.Views.{RoleView};
    ghost use Rattle.count_ledger.specs.RoleBooks.{role_in};

    ghost Value = { Option (RoleView K V F) };

    ghost view = { λ b. role_in b.badge.table_id b.badge.views };
}

impl<K, V, F> RoleBook<K, V, F> {
    ghost use Rattle.std.specs.Prelude.{◌≡◌, Some, None, IsSomeAnd};

    /// No role.
    pub fn blank() -> RoleBook<K, V, F>
        ensures { result ≡ None }
    {
        RoleBook {
            badge: Badge::blank(),
        }
    }

    /// Lays a role by.
    pub fn of(role: BinRole<K, V, F>) -> RoleBook<K, V, F>
        ensures { result ≡ Some role }
    {
        let BinRole { class: _, badge } = role;
        RoleBook { badge }
    }

    /// The role, of this class.
    pub fn into_role(self, class: Class) -> BinRole<K, V, F>
        requires { IsSomeAnd self (λ r. r.class ≡ class) }
        ensures { self ≡ Some result }
    {
        let RoleBook { badge } = self;
        BinRole { class, badge }
    }
}

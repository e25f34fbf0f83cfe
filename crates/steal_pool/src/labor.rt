//! The threads of a pool: one member leads in the caller's, and the others help in threads of their
//! own.
ghost use Rattle.std.specs.Prelude.{◌≡◌, IfSome, map};
ghost use Rattle.std.specs.Thread.{IsSend, IsSync};

use std::sync::Wait;
use std::thread::{Threads, join_mut};

/// What the members of a pool do: one of them leads, from a root that it takes, and the others
/// help. Each may find the part of the whole range.
pub(crate) trait Labor<X, U, P, Rt: Wait> {
    ghost use Rattle.steal_pool.specs.Shapes.{Shape};

    // The roots from which a member may lead.
    ghost fits: { Self → U → Type 0 };

    // What a member may find.
    ghost gives: { Self → P → Type 0 };

    // What a member keeps.
    ghost shape: { X → Shape };

    /// Works on the root, where nobody has taken it, and then helps.
    fn lead(&self, rt: &Rt, root: &mut Option<U>, me: &mut X) -> Option<P>
        requires { IfSome root.old (fits self.now) }
        ensures part { IfSome result (gives self.now) }
        ensures shape { shape me.new ≡ shape me.old };

    /// Takes tasks until the run is done.
    fn help(&self, rt: &Rt, me: &mut X) -> Option<P>
        ensures part { IfSome result (gives self.now) }
        ensures shape { shape me.new ≡ shape me.old };
}

// Members help, and start threads for each other by halves.
#[cycle(helping)]
fn all_help<X: Send, U, P: Send + Drop, L: Labor<X, U, P, Rt> + Sync, Rt: Threads + Wait + Sync>(
    rt: &Rt,
    labor: &L,
    members: &mut [X],
) -> Option<P>
    ensures part { IfSome result (L.gives labor.now) }
    ensures shapes { map L.shape members.new ≡ map L.shape members.old }
{
    let count = members.len();
    if count < 2 {
        let Some(one) = members.first_mut() else {
            return None;
        };
        return labor.help(rt, one);
    }
    let (front, back) = members.split_at_mut(count / 2);
    both_help(rt, labor, front, back)
}

// Two parts of the members help, one in a thread of its own.
#[cycle(helping)]
fn both_help<X: Send, U, P: Send + Drop, L: Labor<X, U, P, Rt> + Sync, Rt: Threads + Wait + Sync>(
    rt: &Rt,
    labor: &L,
    front: &mut [X],
    back: &mut [X],
) -> Option<P>
    ensures part { IfSome result (L.gives labor.now) }
    ensures front { map L.shape front.new ≡ map L.shape front.old }
    ensures back { map L.shape back.new ≡ map L.shape back.old }
{
    let mut theirs = || -> Option<P>
        requires { IsSync Rt.row × IsSync L.row × IsSend X.row × IsSend P.row }
        ensures { IfSome result (L.gives labor.entry.now)
            × (map L.shape front.exit.now ≡ map L.shape front.entry.now) }
    { all_help(rt, labor, front) };
    let mut ours = || -> Option<P>
        requires { IsSync Rt.row × IsSync L.row × IsSend X.row × IsSend P.row }
        ensures { IfSome result (L.gives labor.entry.now)
            × (map L.shape back.exit.now ≡ map L.shape back.entry.now) }
    { all_help(rt, labor, back) };
    let (theirs, ours) = join_mut(rt, &mut theirs, &mut ours);
    ours.or(theirs)
}

// One member leads, and the others help. Where no thread can be started they help after it, when
// nothing is left to do.
fn lead_others<X: Send, U, P: Send + Drop, L: Labor<X, U, P, Rt> + Sync, Rt: Threads + Wait + Sync>(
    rt: &Rt,
    labor: &L,
    root: &mut Option<U>,
    me: &mut X,
    others: &mut [X],
) -> Option<P>
    requires { IfSome root.old (L.fits labor.now) }
    ensures part { IfSome result (L.gives labor.now) }
    ensures me { L.shape me.new ≡ L.shape me.old }
    ensures others { map L.shape others.new ≡ map L.shape others.old }
{
    if others.is_empty() {
        return labor.lead(rt, root, me);
    }
    let mut theirs = || -> Option<P>
        ensures { IfSome result (L.gives labor.entry.now)
            × (map L.shape others.exit.now ≡ map L.shape others.entry.now) }
    { all_help(rt, labor, others) };
    let mut ours = || -> Option<P>
        requires { IfSome root.now (L.fits labor.now) }
        ensures { IfSome result (L.gives labor.entry.now)
            × (L.shape me.exit.now ≡ L.shape me.entry.now) }
    { labor.lead(rt, root, me) };
    let (theirs, ours) = join_mut(rt, &mut theirs, &mut ours);
    ours.or(theirs)
}

/// The last member leads, and at most so many of the others help. Those for whom there is no thread
/// are left out.
pub(crate) fn crew<
    X: Send,
    U: Drop,
    P: Send + Drop,
    L: Labor<X, U, P, Rt> + Sync,
    Rt: Threads + Wait + Sync,
>(rt: &Rt, labor: &L, threads: usize, root: U, members: &mut [X]) -> Option<P>
    requires { L.fits labor.now root }
    ensures part { IfSome result (L.gives labor.now) }
    ensures shapes { map L.shape members.new ≡ map L.shape members.old }
{
    let mut root = Some(root);
    let Some((me, others)) = members.split_last_mut() else {
        return None;
    };
    let idle = others.len().saturating_sub(threads);
    let (_idle, helpers) = others.split_at_mut(idle);
    lead_others(rt, labor, &mut root, me, helpers)
}

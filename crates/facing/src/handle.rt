//! Handles, as C has them.
ghost use Rattle.std.specs.Prelude.{◌≡◌, MatchOption};
ghost use Rattle.facing.specs.declared.target.Target.{Target};
ghost use Rattle.facing.specs.Handles.{handle_owns, IsFilled, thing_coded};

use crate::target::Target;
use facing_handles::RawBox;
pub(crate) use facing_maps::answered;
use std::alloc::Global;
use std::marker::Model;

/// What a target answers, or the status for which it does not; none, where it is of another kind than is
/// asked.
pub(crate) type Asked<T> = Option<Result<T, u32>>;

/// Asks what a handle stands for, and gives the handle back through the room for it. Null answers none. It is
/// no function with a closure: the kit does not check the borrows of a closure that is lent a client.
macro_rules! lend {
    ($handle:ident, $out:ident, |$target:ident| $asked:expr) => {
        $crate::handle::answered(match $handle.into_box() {
            Some(mut lent) => {
                let $target = lent.as_mut();
                let asked = $asked;
                *$out = FacingOut::of(lent);
                asked
            }
            None => None,
        })
    };
}

pub(crate) use lend;

/// A handle: one pointer, which C keeps and moves, and neither copies nor reads through. It may be
/// null, and stands for nothing then.
#[repr(C)]
pub struct FacingHandle {
    ptr: *mut u8,
    alloc: Global,
    pub ghost target: { Target } by { thing_coded },
}

impl Model for FacingHandle {
    ghost also_owns = { λ h. handle_owns h.alloc h.ptr h.target };
}

unsafe impl Send for FacingHandle {}

/// Room for a handle. C hands it in null, and finds a handle there, or null still. A handle that was
/// there before is lost.
#[repr(C)]
#[derive(Drop)]
pub struct FacingOut {
    ptr: *mut u8,
    alloc: Global,
    pub ghost target: { Target } by { thing_coded },
}

impl Model for FacingOut {
    ghost also_owns = { λ h. handle_owns h.alloc h.ptr h.target };
}

impl FacingHandle {
    /// What the handle owns, without the handle, where it is not null.
    fn into_raw_box(self) -> Option<RawBox<Target, Global>>
        ensures { MatchOption result (¬ IsFilled self.ptr)
            (λ raw_box. IsFilled self.ptr × (raw_box.value ≡ self.target)) }
    {
        let FacingHandle { ptr, alloc } = self;
        if ptr.is_null() {
            return None;
        }
        Some(RawBox {
            ptr: ptr as *mut Target,
            alloc,
        })
    }

    /// The box of what the handle stands for, where it is not null.
    pub(crate) fn into_box(self) -> Option<Box<Target, Global>>
        ensures { MatchOption result (¬ IsFilled self.ptr)
            (λ target. IsFilled self.ptr × (target.value ≡ self.target)) }
    {
        match self.into_raw_box() {
            Some(raw_box) => Some(raw_box.into_box()),
            None => None,
        }
    }
}

impl FacingOut {
    /// A handle that owns this.
    fn of_raw_box(raw_box: RawBox<Target, Global>) -> FacingOut
        ensures { (result.target ≡ raw_box.value) × IsFilled result.ptr }
    {
        let RawBox { ptr, alloc } = raw_box;
        FacingOut {
            ptr: ptr as *mut u8,
            alloc,
        }
    }

    /// A handle of what is in the box.
    pub(crate) fn of(boxed: Box<Target, Global>) -> FacingOut
        ensures target { result.target ≡ boxed.value }
        ensures filled { IsFilled result.ptr }
    {
        FacingOut::of_raw_box(RawBox::of(boxed))
    }
}

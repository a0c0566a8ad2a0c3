//! A place where C keeps a session, or nothing.
ghost use Rattle.std.specs.Prelude.{◌≡◌, is_some, true, false, Option, Some, None, MatchOption};
ghost use Rattle.ddr_c.specs.declared.session.Session.{Session};

use crate::kept::Kept;
use crate::parts::Parts;
use crate::session::Session;
use std::alloc::Global;
use std::mem::replace;

/// A session, or nothing. It is not `Drop`: only a box gives memory back, and so a session goes back into a box before its slot is
/// given something else.
#[repr(C)]
pub struct Slot {
    has: bool,
    kept: Kept,
    ghost tells: { has ≡ is_some kept.session },
}

impl Slot {
    /// With nothing, as zeroes are.
    pub fn empty(alloc: Global) -> Slot
        ensures { result.kept.session ≡ None }
    {
        Slot {
            has: false,
            kept: Kept::empty(alloc),
        }
    }

    /// Keeps this session, in a slot that has none.
    pub fn put(&mut self, session: Box<Session>)
        requires { self.old.kept.session ≡ None }
        ensures { self.new.kept.session ≡ Some session.value }
    {
        let full = Slot {
            has: true,
            kept: Kept::full(Parts::of(session)),
        };
        replace(self, full).let_go();
    }

    /// Lets go a slot that has no session.
    pub fn let_go(self)
        requires { self.kept.session ≡ None }
    {
        let Slot {
            has: _has,
            kept: _kept,
        } = self;
    }

    /// Takes the session out, where there is one.
    pub fn take(&mut self, alloc: Global) -> Option<Box<Session>>
        ensures gone { self.new.kept.session ≡ None }
        ensures had { MatchOption result (self.old.kept.session ≡ None) (λ b. self.old.kept.session ≡ Some b.value) }
    {
        let Slot { has, kept } = replace(self, Slot::empty(alloc));
        if has {
            Some(kept.into_parts().into_box())
        } else {
            None
        }
    }
}

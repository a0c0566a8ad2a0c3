//! The pointer behind a slot, and what it owns.
ghost use Rattle.std.specs.Prelude.{◌≡◌, Option, Some, None, true, is_some};
ghost use Rattle.ddr_c.specs.declared.session.Session.{Session};
ghost use Rattle.ddr_c.specs.Handle.{kept_coded, kept_owns};

use crate::parts::Parts;
use crate::session::Session;
use std::alloc::Global;
use std::marker::Model;
use std::ptr::null_mut;

/// Owns a `Box<Session>` where `session` is one. A C function cannot name a `Session`, so the pointer is one to bytes.
#[repr(C)]
#[derive(Drop)]
pub struct Kept {
    ptr: *mut u8,
    alloc: Global,
    pub ghost session: { Option Session } by { kept_coded },
}

impl Model for Kept {
    ghost also_owns = { λ s. kept_owns s.alloc s.ptr s.session };
}

impl Kept {
    pub fn empty(alloc: Global) -> Kept
        ensures { result.session ≡ None }
    {
        Kept {
            ptr: null_mut(),
            alloc,
        }
    }

    pub fn full(parts: Parts<Session, Global>) -> Kept
        ensures { result.session ≡ Some parts.value }
    {
        let Parts { ptr, alloc } = parts;
        Kept {
            ptr: ptr as *mut u8,
            alloc,
        }
    }

    pub fn into_parts(self) -> Parts<Session, Global>
        requires { is_some self.session ≡ true }
        ensures { self.session ≡ Some result.value }
    {
        let Kept { ptr, alloc } = self;
        Parts {
            ptr: ptr as *mut Session,
            alloc,
        }
    }
}

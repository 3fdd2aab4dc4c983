//! Handles, as C keeps them.
ghost use Rattle.std.specs.Prelude.{◌≡◌, Option, Some, None, is_some, true, IfOk};
ghost use Rattle.std.specs.Borrow.{sem};
ghost use Rattle.std.specs.Coded.{coded_option};
ghost use Rattle.sacn_c.specs.declared.held_value.Held.{Held};
ghost use Rattle.sacn_c.specs.contracts.held_value.Held.{the_row};

use crate::held_value::Held;
use crate::loose::Loose;
use std::alloc::{AllocError, Global};
use std::marker::Model;
use std::ptr::null_mut;

/// A handle: a pointer that C keeps in memory of its own, and never looks behind.
///
/// Its value is what it stands for, or `None` where it is empty. An empty one may have any pointer.
#[repr(C)]
#[derive(Drop)]
pub struct Handle {
    at: *mut u8,
    alloc: Global,
    pub ghost value: { Option Held } by { coded_option the_row.coded },
}

impl Model for Handle {
    ghost use Rattle.sacn_c.specs.Ownership.{owned};

    ghost also_owns = { λ h. owned h.alloc h.at h.value };
}

impl Handle {
    ghost use Rattle.sacn_c.specs.Lending.{LendsHeld};

    /// A handle that stands for a value, in memory of its own.
    ///
    /// Errors: `AllocError`.
    pub(crate) fn new(alloc: Global, held: Held) -> Result<Handle, AllocError>
        ensures { IfOk result (λ made. made.value ≡ Some held) }
    {
        let held = Box::new(alloc, held)?;
        Ok(Handle::from_loose(Loose::of(held)))
    }

    /// What a handle that isn't empty stands for.
    pub(crate) fn held(&mut self) -> &mut Held
        requires { is_some self.old.value ≡ true }
        ensures* stands_for_it { sem 𝓛 (LendsHeld self.entry result) }
        ensures value { self.old.value ≡ Some result.now }
    {
        unsafe { &mut *self.at.cast::<Held>() }
    }

    /// The box of a handle that isn't empty.
    pub(crate) fn into_box(self) -> Box<Held>
        requires { is_some self.value ≡ true }
        ensures { self.value ≡ Some result.value }
    {
        self.into_loose().into_box()
    }

    /// An empty handle.
    pub(crate) fn empty(alloc: Global) -> Handle
        ensures { result.value ≡ None }
    {
        Handle {
            at: null_mut(),
            alloc,
        }
    }

    fn from_loose(loose: Loose<Held, Global>) -> Handle
        ensures { result.value ≡ Some loose.value }
    {
        let Loose { at, alloc } = loose;
        Handle {
            at: at.cast::<u8>(),
            alloc,
        }
    }

    fn into_loose(self) -> Loose<Held, Global>
        requires { is_some self.value ≡ true }
        ensures { self.value ≡ Some result.value }
    {
        let Handle { at, alloc } = self;
        Loose {
            at: at.cast::<Held>(),
            alloc,
        }
    }
}

//! A state behind a pointer that C can hold.

ghost use Rattle.std.specs.Prelude.{◌≡◌, ◌≢◌, Option, Some, None};
ghost use Rattle.std.specs.declared.alloc.Global.{Global as Heap};
ghost use Rattle.bib_state.specs.declared.state.State.{State as Behind};

use crate::loose::Loose;
use bib_state::State;
use std::alloc::Global;
use std::marker::Model;
use std::{mem, ptr};

/// A pointer to a state, or to nothing. C makes one of a null pointer, and never reads or writes what is behind it.
#[repr(C)]
#[derive(Drop)]
pub struct Handle {
    at: *mut u8,
    pub ghost by: { Heap },
    pub ghost state: { Option Behind },
}

impl Model for Handle {
    ghost use Rattle.bib_c.specs.Held.{held};
    ghost use Rattle.bib_state.specs.contracts.state.State.{the_row as state_row};

    ghost also_owns = { λ h. held h.by state_row h.at h.state };
}

impl Handle {
    /// The handle of nothing.
    pub fn empty() -> Handle
        ensures { result.state ≡ None }
    {
        Handle {
            at: ptr::null_mut(),
        }
    }

    /// The handle of what the pointer leads to.
    fn of_loose(loose: Loose<State, Global>) -> Handle
        ensures { result.state ≡ Some loose.value }
    {
        let Loose { at, alloc: _ } = loose;
        Handle { at: at as *mut u8 }
    }

    /// The pointer again.
    fn into_loose(self, alloc: Global) -> Loose<State, Global>
        requires { self.state ≢ None }
        ensures { self.state ≡ Some result.value }
    {
        let Handle { at } = self;
        Loose {
            at: at as *mut State,
            alloc,
        }
    }

    /// The handle of what is in the box.
    pub fn of(state: Box<State>) -> Handle
        ensures { result.state ≡ Some state.value }
    {
        Handle::of_loose(Loose::of(state))
    }

    /// Takes the box out of the handle, which is then of nothing.
    pub fn take(&mut self, alloc: Global) -> Box<State>
        requires { self.old.state ≢ None }
        ensures value { self.old.state ≡ Some result.value }
        ensures left { self.new.state ≡ None }
    {
        mem::replace(self, Handle::empty())
            .into_loose(alloc)
            .into_box()
    }
}

/// Takes what may pass to another thread.
fn pass<T: Send>(_value: &T) {}

/// A state may pass to another thread, if one call at a time uses it.
pub fn may_pass(state: &State) {
    pass(state);
}

//! What C holds of a solver.

ghost use Rattle.std.specs.Prelude.{◌≡◌, Option, Some, None, MatchOption};
ghost use Rattle.spec_solving.specs.Solving.{Solving};

use crate::loose::Loose;
use mal_solving::Solver;
use std::alloc::Global;
use std::marker::Model;
use std::mem;

/// The pointer to a solver, null where there is none. Contracts see the solver's value, if there is one. C knows this
/// struct as a pointer of its own.
#[repr(C)]
pub struct Handle {
    at: *mut u8,
    pub ghost value: { Option Solving },
}

impl Model for Handle {
    ghost use Rattle.std.specs.Prelude.{Option};
    ghost use Rattle.mal_c.specs.Held.{held};
    ghost use Rattle.spec_solving.specs.Solving.{Solving};
    ghost use Rattle.mal_solving.specs.contracts.solver.Solver as solver;

    ghost also_owns = { λ h. held solver.the_row h.at h.value };
}

impl Handle {
    /// The handle of no solver.
    fn empty() -> Handle
        ensures { result.value ≡ None }
    {
        Handle {
            at: std::ptr::null_mut(),
        }
    }

    /// The handle of a solver.
    fn full(loose: Loose<Solver, Global>) -> Handle
        ensures { result.value ≡ Some loose.value }
    {
        let Loose { at, alloc: _ } = loose;
        Handle { at: at as *mut u8 }
    }

    /// The solver, if there is one.
    fn into_loose(self, alloc: Global) -> Option<Loose<Solver, Global>>
        ensures { MatchOption result (self.value ≡ None) (λ l. self.value ≡ Some l.value) }
    {
        let Handle { at } = self;
        if at.is_null() {
            None
        } else {
            Some(Loose {
                at: at as *mut Solver,
                alloc,
            })
        }
    }

    /// Takes the solver out, if there is one, and leaves none.
    pub fn take(&mut self, alloc: Global) -> Option<Box<Solver>>
        ensures value { MatchOption result (self.old.value ≡ None) (λ b. self.old.value ≡ Some b.value) }
        ensures none { self.new.value ≡ None }
    {
        match mem::replace(self, Handle::empty()).into_loose(alloc) {
            None => None,
            Some(loose) => Some(loose.into_box()),
        }
    }

    /// Puts a solver in. One that was there is let go.
    pub fn put(&mut self, alloc: Global, solver: Box<Solver>)
        ensures { self.new.value ≡ Some solver.value }
    {
        let before = mem::replace(self, Handle::full(Loose::of(solver)));
        match before.into_loose(alloc) {
            None => {}
            Some(loose) => drop(loose.into_box()),
        }
    }
}

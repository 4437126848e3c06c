//! A machine, or none, by a pointer whose type C may see.

ghost use Rattle.std.specs.Prelude.{◌≡◌, Option, Some, None, IsSome, MatchOption, is_some};
ghost use Rattle.gitwire.specs.declared.machine.Machine.{Machine};
ghost use Rattle.gitwire.specs.Held.{held_owns, machine_coded};

use crate::machine::Machine;
use crate::parts::Parts;
use std::alloc::Global;
use std::marker::Model;
use std::mem::replace;
use std::ptr::null_mut;

/// A machine on the heap, or none. It cannot be dropped: one with a machine is taken apart, and one without is left.
#[repr(C)]
pub(crate) struct Held {
    at: *mut u8,
    alloc: Global,
    pub(crate) ghost machine: { Option Machine } by { machine_coded },
}

impl Model for Held {
    ghost also_owns = { λ h. held_owns h.alloc h.at h.machine };
}

impl Held {
    ghost use Rattle.std.specs.Borrow.{sem};
    ghost use Rattle.gitwire.specs.HeldLent.{LendsMachine};

    fn none(alloc: Global) -> Held
        ensures { result.machine ≡ None }
    {
        Held {
            at: null_mut(),
            alloc,
        }
    }

    fn of_parts(parts: Parts<Machine, Global>) -> Held
        ensures { result.machine ≡ Some parts.value }
    {
        let Parts { ptr, alloc } = parts;
        Held {
            at: ptr as *mut u8,
            alloc,
        }
    }

    fn into_parts(self) -> Parts<Machine, Global>
        requires { IsSome self.machine }
        ensures { self.machine ≡ Some result.value }
    {
        let Held { at, alloc } = self;
        Parts {
            ptr: at as *mut Machine,
            alloc,
        }
    }

    /// The machine, where it is.
    fn machine(&mut self) -> &mut Machine
        requires { IsSome self.old.machine }
        ensures* writes_back { sem 𝓛 (LendsMachine self.entry result) }
        ensures value { self.old.machine ≡ Some result.now }
    {
        unsafe { &mut *(self.at as *mut Machine) }
    }

    /// Takes apart one without a machine, since nothing is to be freed then.
    fn leave(self)
        requires { self.machine ≡ None }
    {
        let Held {
            at: _at,
            alloc: _alloc,
        } = self;
    }
}

unsafe impl Send for Held {}

/// What each handle of C is: a machine or none, and which of the two. Dropping it frees its machine.
#[repr(C)]
pub(crate) struct Handle {
    held: Held,
    is_made: bool,
    ghost announces: { is_made ≡ is_some held.machine },
}

impl Handle {
    ghost use Rattle.std.specs.Borrow.{sem};
    ghost use Rattle.gitwire.specs.HandlesLent.{HandleStays};
    ghost use Rattle.gitwire.specs.PayloadsLent.{payload_in};

    /// A handle without a machine.
    pub(crate) fn none(alloc: Global) -> Handle
        ensures { result.held.machine ≡ None }
    {
        Handle {
            held: Held::none(alloc),
            is_made: false,
        }
    }

    /// The handle of this machine.
    pub(crate) fn of(machine: Box<Machine, Global>) -> Handle
        ensures { result.held.machine ≡ Some machine.value }
    {
        Handle {
            held: Held::of_parts(Parts::of(machine)),
            is_made: true,
        }
    }

    /// The payload that its machine lends, where it is; no bytes without one.
    pub(crate) fn payload(&mut self) -> &[u8]
        ensures* stays { sem 𝓛 (HandleStays self.entry) }
        ensures value { result.now ≡ payload_in self.old.held.machine }
    {
        if !self.is_made {
            return b"";
        }
        self.held.machine().payload()
    }

    /// The machine, if the handle has one.
    pub(crate) fn into_machine(self) -> Option<Box<Machine, Global>>
        ensures { MatchOption result (self.held.machine ≡ None) (λ machine. self.held.machine ≡ Some machine.value) }
    {
        let Handle { held, is_made } = self;
        if !is_made {
            held.leave();
            return None;
        }
        Some(held.into_parts().into_box())
    }

    /// The machine, and the box in which it lay.
    pub(crate) fn open(self) -> Option<(Machine, Shell)>
        ensures { MatchOption result (self.held.machine ≡ None) (λ opened. self.held.machine ≡ Some opened.0) }
    {
        let mut machine = self.into_machine()?;
        let taken = replace(&mut *machine, Machine::Empty);
        Some((taken, Shell { machine }))
    }
}

impl Drop for Handle {
    fn drop(self) {
        drop(self.into_machine());
    }
}

/// The box of a machine, with none in it.
#[derive(Drop)]
pub(crate) struct Shell {
    machine: Box<Machine, Global>,
    ghost empty: { machine.value ≡ Machine.Empty },
}

impl Shell {
    /// A new box; none if there is no memory for it.
    pub(crate) fn new(alloc: Global) -> Option<Shell> {
        match Box::new(alloc, Machine::Empty) {
            Ok(machine) => Some(Shell { machine }),
            Err(_) => None,
        }
    }

    /// A handle of the machine, which lies in this box from now on.
    pub(crate) fn shut(self, machine: Machine) -> Handle
        ensures { result.held.machine ≡ Some machine }
    {
        let Shell { machine: mut shell } = self;
        match replace(&mut *shell, machine) {
            Machine::Empty => Handle::of(shell),
            _ => unreachable!(),
        }
    }
}

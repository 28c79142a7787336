//! The running world.

ghost use Rattle.std.specs.Prelude.{◌≡◌, [], true, false, Err};
ghost use Rattle.ej_world.specs.Runs.{run};
ghost use Rattle.proc_sched.specs.Choose.{InRange, Chooses, forgotten};
ghost use Rattle.proc_sched.specs.Seen.{HoldsEvents, events_of};
ghost use Rattle.proc_sched.specs.Worlds.{seen, IsWorld};
ghost use Rattle.proc_sched.specs.declared.fault.ChoiceFault.TheVariants.{NoMemory};

use crate::fault::ChoiceFault;
use crate::process::Process;
use crate::system::System;
use ej_world::{Choice, Event};
use std::alloc::Global;
use term_heap::{Heap, TermId};

/// A world that runs over a code.
///
/// It is seen as what was seen so far, and as what each script of choices would show from here on: at first that is the run
/// of the code, and each choice takes what it shows off the front.
#[derive(Drop)]
pub struct World<P: Process + Drop> {
    code: P,
    system: System<P>,
    /// Memory was wanting in a choice.
    spent: bool,
}

impl<P: Process + Drop> World<P> {
    /// A world with no process, at the time 0.
    pub fn new(alloc: Global, code: P) -> World<P>
        ensures is { IsWorld P.holds P.means P.is_state result }
        ensures shows { (seen P.means P.code result).shows ≡ run (P.code code) }
        ensures events { (seen P.means P.code result).events ≡ [] }
        ensures spent { (seen P.means P.code result).spent ≡ false }
    {
        World {
            code,
            system: System::new(alloc),
            spent: false,
        }
    }

    /// What was seen, but for what was forgotten.
    pub fn events(&self) -> &[Event<TermId>]
        ensures events { events_of (seen P.means P.code self.now).heap result.now ≡ (seen P.means P.code self.now).events }
        ensures held { IsWorld P.holds P.means P.is_state self.now → (seen P.means P.code self.now).spent ≡ false → HoldsEvents (seen P.means P.code self.now).heap result.now }
    {
        self.system.node.events.as_slice()
    }

    /// Forgets what was seen so far.
    pub fn forget_events(&mut self)
        ensures is { IsWorld P.holds P.means P.is_state self.old → IsWorld P.holds P.means P.is_state self.new }
        ensures forgets { seen P.means P.code self.new ≡ forgotten (seen P.means P.code self.old) }
    {
        self.system.node.events.clear();
    }

    /// The terms of the events.
    pub fn heap(&self) -> &Heap
        ensures { result.now ≡ (seen P.means P.code self.now).heap }
    {
        &self.system.node.heap
    }

    /// Makes a choice, and appends what is seen of it. Its numbers and its count of arguments are in the ranges that a
    /// `Choice` states. The world is one that `new` and choices made.
    ///
    /// # Errors
    /// `Opaque` exactly where an opaque token is in a term of the choice; the world is as it was then. After `NoMemory` every
    /// choice answers it.
    pub fn choose(&mut self, choice: &Choice) -> Result<(), ChoiceFault>
        requires is { IsWorld P.holds P.means P.is_state self.old }
        requires range { InRange choice.now }
        ensures is { IsWorld P.holds P.means P.is_state self.new }
        ensures chooses { Chooses choice.now (seen P.means P.code self.old) (seen P.means P.code self.new) result }
        ensures spent { (seen P.means P.code self.old).spent ≡ true → result ≡ Err NoMemory }
    {
        if self.spent {
            return Err(ChoiceFault::NoMemory);
        }
        match self.system.choose(&self.code, choice) {
            Ok(()) => Ok(()),
            Err(ChoiceFault::Opaque) => Err(ChoiceFault::Opaque),
            Err(ChoiceFault::NoMemory) => {
                self.spent = true;
                Err(ChoiceFault::NoMemory)
            }
        }
    }
}

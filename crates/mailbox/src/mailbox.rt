//! The mailbox.

ghost use Rattle.std.specs.Prelude.{◌≡◌, ◌≤◌, ◌↔◌, length, slice_get, None, OnOk, OnErr};
ghost use Rattle.mailbox.specs.Mailbox as spec;

use std::alloc::{AllocError, Global};
use std::collections::VecDeque;
use std::marker::Model;
use std::mem;
use term_heap::TermId;

/// The messages of a process, the oldest first, and the save place in them: the number of messages, from the oldest
/// on, that the receive has passed over. It is never behind the end.
#[derive(Debug, Drop)]
pub struct Mailbox {
    messages: VecDeque<TermId>,
    save: usize,
}

impl Model for Mailbox {
    ghost use Rattle.std.specs.Prelude.{◌≤◌, length};
    ghost use Rattle.mailbox.specs.Mailbox.{Seen};

    ghost Value = { Seen };

    ghost view = { λ m. record { messages = m.messages.items; save = m.save } };

    ghost invariant = { λ m. m.save ≤ length m.messages.items };
}

impl Mailbox {
    /// A mailbox with no message, which takes no memory. It keeps `alloc` for what is added.
    pub fn new(alloc: Global) -> Mailbox
        ensures { result ≡ spec.empty }
    {
        Mailbox {
            messages: VecDeque::new(alloc),
            save: 0,
        }
    }

    /// Puts a message behind all others, in constant time on average. The error says that memory was wanting, and leaves
    /// the mailbox as it was.
    pub fn push(&mut self, t: TermId) -> Result<(), AllocError>
        ensures ok { OnOk result (self.new ≡ spec.pushed t self.old) }
        ensures err { OnErr result (self.new ≡ self.old) }
    {
        self.messages.push_back(t)?;
        Ok(())
    }

    /// The message at the save place. There is none exactly where that is the number of messages.
    pub fn at_save(&self) -> Option<TermId>
        ensures message { result ≡ spec.at_save self.now }
        ensures none { (result ≡ None) ↔ (self.now.save ≡ length self.now.messages) }
        ensures within { self.now.save ≤ length self.now.messages }
    {
        self.get(self.save)
    }

    /// Moves the save place by one where a message is there, and else leaves it.
    pub fn advance(&mut self)
        ensures { self.new ≡ spec.advanced self.old }
    {
        if self.save < self.messages.len() {
            self.save += 1;
        }
    }

    /// Takes out the message at the save place, which goes back to 0. There is none exactly where the save place is the
    /// number of messages; it goes back to 0 then too. What is moved are the messages before that place or those behind
    /// it, whichever are fewer.
    pub fn take(&mut self) -> Option<TermId>
        ensures message { result ≡ spec.at_save self.old }
        ensures left { self.new ≡ spec.taken self.old }
        ensures none { (result ≡ None) ↔ (self.old.save ≡ length self.old.messages) }
    {
        let place = mem::replace(&mut self.save, 0);
        self.messages.remove(place)
    }

    /// Puts the save place back to 0.
    pub fn reset(&mut self)
        ensures { self.new ≡ spec.reset self.old }
    {
        self.save = 0;
    }

    /// How many messages there are.
    pub fn len(&self) -> usize
        ensures { result ≡ length self.now.messages }
    {
        self.messages.len()
    }

    /// The message at a place from 0, the oldest's, where there is one.
    pub fn get(&self, place: usize) -> Option<TermId>
        ensures { result ≡ slice_get self.now.messages place }
    {
        self.messages.get(place).copied()
    }
}

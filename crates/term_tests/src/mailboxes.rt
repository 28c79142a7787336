//! What a mailbox answers, call by call.

use mailbox::Mailbox;
use std::alloc::{AllocError, Global};
use std::test::Fail;
use term_heap::{Heap, TermId};

/// A call, with what it is to answer. A message is the integer of that number, and `Get` names its place first.
#[derive(Clone, Copy, Debug)]
enum Call {
    Push(usize),
    AtSave(Option<usize>),
    Advance,
    Take(Option<usize>),
    Reset,
    Len(usize),
    Get(usize, Option<usize>),
}

static CALLS: [Call; 43] = [
    // Nothing is there.
    Call::Len(0),
    Call::AtSave(None),
    Call::Advance,
    Call::Take(None),
    // The first of three is at the save place, then the second, which is taken.
    Call::Push(0),
    Call::AtSave(Some(0)),
    Call::Push(1),
    Call::Push(2),
    Call::AtSave(Some(0)),
    Call::Advance,
    Call::AtSave(Some(1)),
    Call::Take(Some(1)),
    Call::AtSave(Some(0)),
    Call::Len(2),
    Call::Get(1, Some(2)),
    // At the end the save place stays, so that the next message comes in there.
    Call::Advance,
    Call::Advance,
    Call::Advance,
    Call::AtSave(None),
    Call::Push(3),
    Call::AtSave(Some(3)),
    Call::Take(Some(3)),
    // Where none is taken the save place goes back too, and so by a reset.
    Call::Advance,
    Call::Advance,
    Call::Take(None),
    Call::AtSave(Some(0)),
    Call::Advance,
    Call::AtSave(Some(2)),
    Call::Reset,
    Call::AtSave(Some(0)),
    // Of two equal messages the one at the save place is taken.
    Call::Push(0),
    Call::Advance,
    Call::Advance,
    Call::Take(Some(0)),
    Call::Get(0, Some(0)),
    Call::Get(1, Some(2)),
    Call::Get(2, None),
    // The rest is taken from the front.
    Call::Take(Some(0)),
    Call::Take(Some(2)),
    Call::Take(None),
    Call::Len(0),
    Call::Reset,
    Call::AtSave(None),
];

// the integers from 0 on, so many
fn messages(alloc: Global, count: u8) -> Result<Vec<TermId>, AllocError> {
    let mut heap = Heap::new(alloc);
    let mut ids = Vec::new(alloc);
    for number in 0..count {
        ids.push(heap.int(i64::from(number))?)?;
    }
    Ok(ids)
}

// the message of this number, where there is one
fn numbered(ids: &[TermId], number: Option<usize>) -> Option<TermId> {
    match number {
        Some(number) => ids.get(number).copied(),
        None => None,
    }
}

// whether a call answers what it is to answer
fn is_answered(mailbox: &mut Mailbox, ids: &[TermId], call: Call) -> Result<bool, AllocError> {
    match call {
        Call::Push(number) => {
            let Some(id) = numbered(ids, Some(number)) else {
                return Ok(false);
            };
            mailbox.push(id)?;
            Ok(true)
        }
        Call::AtSave(number) => Ok(mailbox.at_save() == numbered(ids, number)),
        Call::Advance => {
            mailbox.advance();
            Ok(true)
        }
        Call::Take(number) => Ok(mailbox.take() == numbered(ids, number)),
        Call::Reset => {
            mailbox.reset();
            Ok(true)
        }
        Call::Len(len) => Ok(mailbox.len() == len),
        Call::Get(place, number) => Ok(mailbox.get(place) == numbered(ids, number)),
    }
}

#[test]
fn a_mailbox_answers_call_by_call(rt: HostRuntime) -> Result<(), Fail> {
    let ids = messages(rt.alloc(), 4)?;
    let mut mailbox = Mailbox::new(rt.alloc());
    for (at, call) in CALLS.iter().enumerate() {
        let answered = is_answered(&mut mailbox, &ids, *call)?;
        assert!(rt; answered, "call {}", at);
    }
    Ok(())
}

// takes the message behind so many others
fn take_behind(mailbox: &mut Mailbox, count: usize) -> Option<TermId> {
    for _ in 0..count {
        mailbox.advance();
    }
    mailbox.take()
}

#[test]
fn every_third_of_a_hundred_is_taken(rt: HostRuntime) -> Result<(), Fail> {
    let ids = messages(rt.alloc(), 100)?;
    let mut mailbox = Mailbox::new(rt.alloc());
    for id in ids.iter() {
        mailbox.push(*id)?;
    }
    // Of three numbers before the one that is taken, two are left.
    for third in 0..34 {
        let taken = take_behind(&mut mailbox, 2 * third);
        assert!(rt; taken == numbered(&ids, Some(3 * third)));
    }
    assert_eq!(rt; mailbox.len(), 66);
    for pair in 0..33 {
        assert!(rt; mailbox.get(2 * pair) == numbered(&ids, Some(3 * pair + 1)));
        assert!(rt; mailbox.get(2 * pair + 1) == numbered(&ids, Some(3 * pair + 2)));
    }
    assert!(rt; take_behind(&mut mailbox, 100).is_none());
    assert!(rt; mailbox.at_save() == numbered(&ids, Some(1)));
    Ok(())
}

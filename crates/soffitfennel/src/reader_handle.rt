//! The pointer to a reader's end that a caller in C keeps.
ghost use Rattle.std.specs.Prelude.{◌≡◌, Option, None, Some};
ghost use Rattle.std.specs.Option.{MatchOption};
ghost use Rattle.t1_link.specs.ReaderTable.{Reader};

use crate::held::Held;
use std::alloc::{Allocator, Global};
use std::marker::Model;
use std::ptr::null_mut;
use t1_link::ReaderEnd;

/// A reader's end on the heap, as its address, or null without one. C moves it, and never looks behind it.
#[repr(C)]
pub struct ReaderHandle {
    at: *mut u8,
    alloc: Global,
    pub ghost value: { Option Reader },
}

impl Model for ReaderHandle {
    ghost use Rattle.soffitfennel.specs.OwningParts.{handle_owns};
    ghost use Rattle.t1_link.specs.contracts.reader_end.ReaderEnd.{the_row};

    ghost also_owns = { λ h. handle_owns (⟦<Global as Allocator>⟧.dealloc_token h.alloc) the_row h.at h.value };
}

impl ReaderHandle {
    /// Returns null, without a reader.
    pub fn empty(alloc: Global) -> ReaderHandle
        ensures { result.value ≡ None }
    {
        ReaderHandle {
            at: null_mut(),
            alloc,
        }
    }

    /// Forgets the type of what is at the address.
    fn of_held(held: Held<ReaderEnd, Global>) -> ReaderHandle
        ensures { result.value ≡ Some held.value }
    {
        let Held { at, alloc } = held;
        ReaderHandle {
            at: at as *mut u8,
            alloc,
        }
    }

    /// Gives what is at the address its type again.
    fn into_held(self) -> Option<Held<ReaderEnd, Global>>
        ensures { MatchOption result (self.value ≡ None) (λ held. self.value ≡ Some held.value) }
    {
        let ReaderHandle { at, alloc } = self;
        if at.is_null() {
            None
        } else {
            Some(Held {
                at: at as *mut ReaderEnd,
                alloc,
            })
        }
    }

    /// Takes the address of a reader's end on the heap.
    pub fn of(reader: Box<ReaderEnd>) -> ReaderHandle
        ensures { result.value ≡ Some reader.value }
    {
        ReaderHandle::of_held(Held::of(reader))
    }

    /// Returns the reader's end at the address, if there is one.
    pub fn into_reader(self) -> Option<Box<ReaderEnd>>
        ensures { MatchOption result (self.value ≡ None) (λ reader. self.value ≡ Some reader.value) }
    {
        match self.into_held() {
            Some(held) => Some(held.into_box()),
            None => None,
        }
    }
}

// A caller may use it on another thread, one call at a time.
unsafe impl Send for ReaderHandle {}

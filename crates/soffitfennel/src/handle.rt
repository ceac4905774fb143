//! The pointer that a caller in C keeps.
ghost use Rattle.std.specs.Prelude.{◌≡◌, Option, None, Some};
ghost use Rattle.std.specs.Option.{MatchOption};
ghost use Rattle.std.specs.Coded.{codes};
ghost use Rattle.card_model.specs.Sessions.{session_code};
ghost use Rattle.soffitfennel.specs.declared.session.Session.{Session};

use crate::held::Held;
use crate::session::Session;
use std::alloc::{Allocator, Global};
use std::marker::Model;
use std::ptr::null_mut;

/// A card on the heap, as its address, or null without a card. C moves it, and never looks behind it.
#[repr(C)]
pub struct Handle {
    at: *mut u8,
    alloc: Global,
    pub ghost value: { Option Session } by { Prim.hlevel (codes, session_code) },
}

impl Model for Handle {
    ghost use Rattle.soffitfennel.specs.OwningParts.{handle_owns};
    ghost use Rattle.soffitfennel.specs.contracts.session.Session.{the_row};

    ghost also_owns = { λ h. handle_owns (⟦<Global as Allocator>⟧.dealloc_token h.alloc) the_row h.at h.value };
}

impl Handle {
    /// Returns null, without a card.
    pub fn empty(alloc: Global) -> Handle
        ensures { result.value ≡ None }
    {
        Handle {
            at: null_mut(),
            alloc,
        }
    }

    /// Forgets the type of what is at the address.
    fn of_held(held: Held<Session, Global>) -> Handle
        ensures { result.value ≡ Some held.value }
    {
        let Held { at, alloc } = held;
        Handle {
            at: at as *mut u8,
            alloc,
        }
    }

    /// Gives what is at the address its type again.
    fn into_held(self) -> Option<Held<Session, Global>>
        ensures { MatchOption result (self.value ≡ None) (λ held. self.value ≡ Some held.value) }
    {
        let Handle { at, alloc } = self;
        if at.is_null() {
            None
        } else {
            Some(Held {
                at: at as *mut Session,
                alloc,
            })
        }
    }

    /// Takes the address of a card on the heap.
    pub fn of(session: Box<Session>) -> Handle
        ensures { result.value ≡ Some session.value }
    {
        Handle::of_held(Held::of(session))
    }

    /// Returns the card at the address, if there is one.
    pub fn into_session(self) -> Option<Box<Session>>
        ensures { MatchOption result (self.value ≡ None) (λ session. self.value ≡ Some session.value) }
    {
        match self.into_held() {
            Some(held) => Some(held.into_box()),
            None => None,
        }
    }
}

// A caller may use it on another thread, one call at a time.
unsafe impl Send for Handle {}

//! The secrets: the value and the unblocking value of each PIN.
ghost use Rattle.std.specs.Prelude.{◌≡◌, ◌<◌, if◌then◌else◌};
ghost use Rattle.nvm_board.specs.Facts.{address};
ghost use Rattle.nvm_board.specs.declared.board.TheConstants.{PAGE_WORDS, SECRETS};
ghost use Rattle.card_model.specs.Pins.{IsPinNumber};
ghost use Rattle.card_model.specs.Secrets.{is_unblocking, owner, unblocking_of, value_of};
ghost use Rattle.pin_store.specs.Pages.{pin_page};
ghost use Rattle.pin_store.specs.declared.layout.TheConstants.{TRIES_WORD, UNBLOCKING_TRIES_WORD};
ghost use Rattle.pin_store.specs.declared.layout.TheConstants.{UNBLOCKING_VALUE_WORD, VALUE_WORD};

use crate::layout::{PINS, TRIES_WORD, UNBLOCKING_TRIES_WORD, UNBLOCKING_VALUE_WORD, VALUE_WORD};
use crate::words::word_address;
use card_model::PinNumber;
use std::marker::Model;

/// A secret that a user presents: the value of a PIN, or its unblocking value.
#[derive(Clone, Copy)]
pub struct Secret {
    number: u8,
}

impl Model for Secret {
    ghost use Rattle.std.specs.Prelude.{ℕ, ◌<◌};
    ghost use Rattle.nvm_board.specs.declared.board.TheConstants.{SECRETS};

    ghost Value = { ℕ };

    ghost view = { λ s. s.number };

    ghost invariant = { λ s. s.number < SECRETS };

    ghost inverse = { λ n. record { number = n } };
}

impl Secret {
    /// Returns the secret that is the value of this PIN.
    pub fn value_of(pin: PinNumber) -> Secret
        ensures secret { result ≡ value_of pin }
        ensures in_range { IsPinNumber pin }
    {
        Secret {
            number: pin.index(),
        }
    }

    /// Returns the secret that is the unblocking value of this PIN.
    pub fn unblocking_value_of(pin: PinNumber) -> Secret
        ensures secret { result ≡ unblocking_of pin }
        ensures in_range { IsPinNumber pin }
    {
        Secret {
            number: PINS + pin.index(),
        }
    }

    /// Returns the number by which a board counts the secret. Secrets 0 to 7 are the values of PIN 1 to 8, 8 to 15
    /// their unblocking values.
    pub fn number(self) -> u8
        ensures value { result ≡ self }
        ensures in_range { result < SECRETS }
    {
        self.number
    }

    /// Returns the address of a word in the page of its PIN.
    pub(crate) fn address_of(self, place: u16) -> u16
        requires place { place < PAGE_WORDS }
        ensures { result ≡ address (pin_page (owner self)) place }
    {
        word_address(self.number() % PINS, place)
    }

    /// Returns the index of its tries word.
    pub(crate) fn tries_place(self) -> u16
        ensures { result ≡ if is_unblocking self then UNBLOCKING_TRIES_WORD else TRIES_WORD }
    {
        if self.is_unblocking() {
            UNBLOCKING_TRIES_WORD
        } else {
            TRIES_WORD
        }
    }

    /// Returns the index of the first of its words.
    pub(crate) fn kept_place(self) -> u16
        ensures { result ≡ if is_unblocking self then UNBLOCKING_VALUE_WORD else VALUE_WORD }
    {
        if self.is_unblocking() {
            UNBLOCKING_VALUE_WORD
        } else {
            VALUE_WORD
        }
    }

    /// Returns true for an unblocking value.
    fn is_unblocking(self) -> bool
        ensures { result ≡ is_unblocking self }
    {
        self.number() >= PINS
    }
}

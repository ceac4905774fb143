//! The numbers of file entries.

ghost use Rattle.std.specs.Prelude.{◌≡◌, ◌↔◌, IsTrue};

use std::marker::Model;

/// The number of a file's entry, from 0, the MF's, to 63. A stored parent may be any byte until start-up has checked
/// the tree, so the type holds any byte; a contract says where a number has an entry, or a file.
#[derive(Clone, Copy, Default, PartialEq, Eq)]
pub struct EntryNumber {
    number: u8,
}

impl Model for EntryNumber {
    ghost use Rattle.std.specs.Prelude.{ℕ, ◌<◌};

    ghost Value = { ℕ };

    ghost view = { λ e. e.number };

    ghost invariant = { λ e. e.number < 256 };

    ghost inverse = { λ n. record { number = n } };
}

impl EntryNumber {
    /// Returns the entry number that a byte is.
    pub fn new(number: u8) -> EntryNumber
        ensures { result ≡ number }
    {
        EntryNumber { number }
    }

    /// Returns the entry number of the MF.
    pub fn master() -> EntryNumber
        ensures { result ≡ 0 }
    {
        EntryNumber { number: 0 }
    }

    /// Returns true for the MF's.
    pub fn is_master(self) -> bool
        ensures { IsTrue result ↔ (self ≡ 0) }
    {
        self.number == 0
    }

    /// Returns the number as a byte.
    pub fn get(self) -> u8
        ensures { result ≡ self }
    {
        self.number
    }
}

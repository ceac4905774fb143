//! The current files and the verified PINs of a session (ISO/IEC 7816-4, 7.3.1).
ghost use Rattle.std.specs.Prelude.{◌≡◌};
ghost use Rattle.command_base.specs.CurrentFiles.{current_at, current_by, fresh_current, made_current, named_from};
ghost use Rattle.command_base.specs.CurrentFiles.{pointer_from, pointing_from, tried_from, unverifies};

use apdu_core::Target;
use card_model::{PinNumber, PinSet};
use file_tree::{Entry, EntryHead, EntryNumber};
use pin_store::Outcome;

/// The session: the current files, as entry numbers, and the verified PINs.
#[derive(Clone, Copy)]
pub struct Current {
    pub df: EntryNumber,
    pub ef: Option<EntryNumber>,
    /// The number of the current record, if any.
    pub pointer: Option<u8>,
    /// The verified PINs.
    pub verified: PinSet,
}

/// Which value of a PIN is presented.
#[derive(Clone, Copy)]
pub enum Shown {
    /// The value of the PIN itself.
    Value,
    /// Its unblocking value.
    UnblockingValue,
}

impl Current {
    /// Returns the session after power-on: master file current, no PIN verified.
    pub fn fresh() -> Current
        ensures { result ≡ fresh_current }
    {
        Current {
            df: EntryNumber::master(),
            ef: None,
            pointer: None,
            verified: PinSet::new(),
        }
    }

    /// Returns the session after the file of entry `e` becomes current.
    pub fn at(self, e: EntryNumber, entry: &Entry) -> Current
        ensures { result ≡ current_at self e entry.now }
    {
        self.at_head(e, entry.head())
    }

    /// Returns the same session, from the head of the entry.
    pub fn at_head(self, e: EntryNumber, head: EntryHead) -> Current
        ensures { result ≡ current_by self e head.kind head.parent }
    {
        self.at_file(e, EntryNumber::new(head.parent), head.is_dedicated())
    }

    /// Returns the same session, from the number of the file's parent.
    /// A dedicated file has no current elementary file in it; an elementary file makes its parent current.
    pub fn at_file(self, e: EntryNumber, parent: EntryNumber, is_dedicated: bool) -> Current
        ensures { result ≡ made_current self e parent is_dedicated }
    {
        let (df, ef) = if is_dedicated {
            (e, None)
        } else {
            (parent, Some(e))
        };
        Current {
            df,
            ef,
            pointer: None,
            ..self
        }
    }

    /// Returns the session after a value of a PIN was presented.
    /// A right value verifies the PIN. A wrong value of the PIN itself removes it from the verified ones.
    pub fn after_attempt(self, pin: PinNumber, shown: Shown, outcome: Outcome) -> Current
        ensures { result ≡ tried_from self pin (unverifies shown) outcome }
    {
        let mut verified = self.verified;
        match (outcome, shown) {
            (Outcome::Matched, _) => verified.insert(pin),
            (Outcome::Wrong(_), Shown::Value) => verified.remove(pin),
            (Outcome::Wrong(_), Shown::UnblockingValue) => {}
        }
        Current { verified, ..self }
    }

    /// Returns the session after a binary command: the named file is current.
    pub fn naming(self, target: Target, e: EntryNumber) -> Current
        ensures { result ≡ named_from self target e }
    {
        match target {
            Target::Current => self,
            Target::Short(_) => Current {
                ef: Some(e),
                pointer: None,
                ..self
            },
        }
    }

    /// Returns the record pointer at the start of a command on records.
    /// A short identifier makes its file current anew, with no current record.
    pub fn pointer_at(self, target: Target) -> Option<u8>
        ensures { result ≡ pointer_from self target }
    {
        match target {
            Target::Current => self.pointer,
            Target::Short(_) => None,
        }
    }

    /// Returns the session after a command on records, with this record pointer.
    pub fn pointing(self, target: Target, e: EntryNumber, pointer: Option<u8>) -> Current
        ensures { result ≡ pointing_from self target e pointer }
    {
        Current {
            pointer,
            ..self.naming(target, e)
        }
    }
}

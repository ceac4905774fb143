//! The place of the PINs in the memory, and their numbers of tries.

pub use card_model::PINS;
pub use card_model::limits::{TRIES, UNBLOCKING_TRIES};

/// The page of PIN 1. Those of the other PINs follow. A value has two words. The words after the mark are unused.
pub const FIRST_PIN_PAGE: u16 = 65;

/// The number of words used in a PIN's page.
pub const PIN_WORDS: u16 = 7;

/// The word for a PIN's tries.
pub(crate) const TRIES_WORD: u16 = 0;

/// The word for a PIN's unblocking tries.
pub(crate) const UNBLOCKING_TRIES_WORD: u16 = 1;

/// The first of the two words of a PIN's value.
pub(crate) const VALUE_WORD: u16 = 2;

/// The first of the two words of a PIN's unblocking value.
pub(crate) const UNBLOCKING_VALUE_WORD: u16 = 4;

/// The word for a PIN's mark: 1 enabled, 0 verification not required.
pub const PIN_MARK_WORD: u16 = 6;

//! Addresses of words, as a number and as page and index.
ghost use Rattle.std.specs.Prelude.{◌≡◌, ◌<◌};
ghost use Rattle.nvm_board.specs.declared.board.TheConstants.{PAGE_WORDS};
ghost use Rattle.nvm_board.specs.Facts.{address};

use nvm_board::PAGE_WORDS;

/// The address of a word.
#[derive(Clone, Copy)]
pub(crate) struct Address {
    /// The address as one number, for reads.
    pub(crate) number: u16,
}

impl Address {
    /// Returns the page and the index in the page, for writes.
    pub(crate) fn page_and_place(self) -> (u16, u8)
        ensures same { address result.0 result.1 ≡ self.number }
        ensures inside { result.1 < PAGE_WORDS }
    {
        (self.number / PAGE_WORDS, (self.number % PAGE_WORDS) as u8)
    }
}

//! The words of a PIN's page.
ghost use Rattle.std.specs.Prelude.{◌≡◌, ◌<◌, slice_index};
ghost use Rattle.nvm_board.specs.Facts.{address};
ghost use Rattle.nvm_board.specs.declared.board.TheConstants.{PAGE_WORDS};
ghost use Rattle.pin_store.specs.Pages.{bytes_of_words, pin_page};

use crate::layout::FIRST_PIN_PAGE;
use undo_journal::PAGE_WORDS;

/// Returns the address of a word in the page of the PIN with this index.
pub(crate) fn word_address(index: u8, place: u16) -> u16
    requires place { place < PAGE_WORDS }
    ensures { result ≡ address (pin_page index) place }
{
    PAGE_WORDS * (FIRST_PIN_PAGE + u16::from(index)) + place
}

/// Returns the bytes of two words, the most significant first.
pub(crate) fn bytes_of(first: u32, second: u32) -> [u8; 8]
    ensures { result ≡ bytes_of_words first second }
{
    let [a, b, c, d] = first.to_be_bytes();
    let [e, f, g, h] = second.to_be_bytes();
    [a, b, c, d, e, f, g, h]
}

/// Returns eight bytes as two words.
pub(crate) fn words_of(bytes: &[u8; 8]) -> [u32; 2]
    ensures { bytes_of_words (slice_index result 0) (slice_index result 1) ≡ bytes.now }
{
    let [a, b, c, d, e, f, g, h] = *bytes;
    [
        u32::from_be_bytes([a, b, c, d]),
        u32::from_be_bytes([e, f, g, h]),
    ]
}

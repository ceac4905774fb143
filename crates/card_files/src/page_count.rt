//! The number of pages of a card, as the command line gives it.
ghost use Rattle.std.specs.Prelude.{◌≡◌, ◌≤◌};
ghost use Rattle.nvm_board.specs.declared.board.TheConstants.{LEAST_PAGES, MOST_PAGES};

use nvm_board::{LEAST_PAGES, MOST_PAGES};

/// The number of pages of a board.
#[derive(Drop)]
pub struct PageCount {
    number: u16,
    ghost least: { LEAST_PAGES ≤ number },
    ghost most: { number ≤ MOST_PAGES },
}

impl PageCount {
    ghost use Rattle.card_files.specs.CommandLines.{pages_number, ArePagesOf};

    /// Returns the number in a text, if a board can have it.
    pub fn parse(text: &str) -> Option<PageCount>
        ensures { ArePagesOf text.now (pages_number result) }
    {
        match text.parse::<u16>() {
            Ok(number) if LEAST_PAGES <= number && number <= MOST_PAGES => {
                Some(PageCount { number })
            }
            _ => None,
        }
    }

    /// Returns the number.
    pub fn number(&self) -> u16
        ensures number { result ≡ self.now.number }
        ensures least { LEAST_PAGES ≤ result }
        ensures most { result ≤ MOST_PAGES }
    {
        self.number
    }
}

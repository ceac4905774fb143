//! The card of a flash's image.
ghost use Rattle.std.specs.Prelude.{◌≡◌, ◌*◌, length, IfErr, IfOk, OnOk};
ghost use Rattle.nvm_board.specs.Facts.{AreWords};
ghost use Rattle.nvm_board.specs.declared.board.TheConstants.{PAGE_WORDS};
ghost use Rattle.flash_device.specs.FlashBlocks.{flash_size};
ghost use Rattle.simulated_flashes.specs.Complements.{IsFirstRandom};
ghost use Rattle.simulated_flashes.specs.GarblingStates.{garbling_state, given_garbling_state};
ghost use Rattle.simulated_flashes.specs.declared.garbling_flash.TheConstants.{FLASH_PAGES};
ghost use Rattle.card_boards.specs.FlashImages.{HasCardOnFlash, IsFlashRefusal};

use crate::card_sizes::CardSizes;
use crate::image::{NoCard, image_board};
use nvm_board::{Board, PAGE_WORDS};
use simulated_flashes::{FLASH_PAGES, GarblingFlash, flash_words};
use std::alloc::{AllocError, Global};

/// Why the words of a flash are no card's.
#[derive(Clone, Copy, Debug, PartialEq, Eq)]
pub enum NoFlashCard {
    /// There is too little memory.
    Memory,
    /// A flash of this kind has another number of words.
    Size,
    /// The flash has no log: it isn't known which of its blocks has the pages.
    Log,
    /// The flash has small sectors, and its log too few free slots for the steps of its move.
    OutOfStep,
    /// Power-on finds no card in the pages.
    Card,
}

/// Returns a powered flash with these words, if they hold a card. A copy is read for that, so the words stay. The seed
/// chooses what power losses leave in the flash.
///
/// # Errors
/// The words hold no card, or there is too little memory.
pub fn flash_of_words<S: CardSizes>(
    alloc: Global,
    words: Vec<u32>,
    seed: u64,
) -> Result<GarblingFlash<S>, NoFlashCard>
    requires { AreWords words.items }
    ensures flash { IfOk result (λ flash. garbling_state flash ≡ given_garbling_state words.items) }
    ensures random { IfOk result (λ flash. IsFirstRandom seed flash.random) }
    ensures card { IfOk result (λ flash. HasCardOnFlash S.kind (garbling_state flash).words) }
    ensures none { IfErr result (λ why. IsFlashRefusal S.kind why words.items) }
{
    if words.len() != flash_words::<S>() as usize {
        return Err(NoFlashCard::Size);
    }
    let mut copy = Vec::new(alloc);
    if copy.extend_from_slice(&words).is_err() {
        return Err(NoFlashCard::Memory);
    }
    check_card::<S>(alloc, copy)?;
    Ok(GarblingFlash::of_words(words, seed))
}

/// Checks that the words of a flash have a log, and that power-on finds a card in its pages.
fn check_card<S: CardSizes>(alloc: Global, words: Vec<u32>) -> Result<(), NoFlashCard>
    requires size { length words.items ≡ flash_size S.SLOTS }
    requires fit { AreWords words.items }
    ensures card { OnOk result (HasCardOnFlash S.kind words.items) }
    ensures none { IfErr result (λ why. IsFlashRefusal S.kind why words.items) }
{
    let pages = S::board_words(alloc, words)?;
    match image_board(alloc, pages) {
        Ok(_) => {}
        Err(NoCard::Memory) => return Err(NoFlashCard::Memory),
        Err(NoCard::Size) => return Err(NoFlashCard::Card),
        Err(NoCard::Start(_)) => return Err(NoFlashCard::Card),
    }
    Ok(())
}

/// Returns the words of a board of as many pages as a flash has.
///
/// # Errors
/// There is too little memory for the words, or the board failed.
pub(crate) fn words_on_board<B: Board + Drop>(
    alloc: Global,
    board: B,
) -> Result<Vec<u32>, AllocError>
    requires { length (B.facts board).words ≡ PAGE_WORDS * FLASH_PAGES }
    ensures { IfOk result (λ words. words.items ≡ (B.facts board).words) }
{
    let mut board = board;
    let mut words = Vec::new(alloc);
    for at in 0..PAGE_WORDS * FLASH_PAGES {
        let Ok(word) = board.read(at) else {
            return Err(AllocError);
        };
        words.push(word)?;
    }
    Ok(words)
}

//! The kinds of simulated flashes that hold a card, each with its log.
ghost use Rattle.std.specs.Prelude.{◌≡◌, length, IfErr, IfOk};
ghost use Rattle.nvm_board.specs.Facts.{AreWords};
ghost use Rattle.flash_device.specs.FlashBlocks.{flash_size};
ghost use Rattle.card_boards.specs.FlashImages.{FlashKind, HasFlashLog, IsFactoryFlash, IsFlashRefusal, words_on_flash};

use crate::blank_flash::{blank_flash, blank_sectors, with_factory_card};
use crate::flash_image::{NoFlashCard, words_on_board};
use flash_board::FlashBoard;
use flash_log::FlashLog;
use sector_board::SectorBoard;
use sector_log::{SectorFault, SectorLog};
use simulated_flashes::{FlashSizes, GarblingFlash, LargeSectors, SmallSectors};
use std::alloc::{AllocError, Global};

/// The sizes of a simulated flash, whose log keeps the pages of a card.
pub trait CardSizes: FlashSizes {
    /// The kind of such a flash.
    ghost kind: { FlashKind };

    /// Returns the words of a flash with the factory card in format 2.
    ///
    /// # Errors
    /// There is too little memory for the flash.
    fn factory_words(alloc: Global) -> Result<Vec<u32>, AllocError>
        ensures size { IfOk result (λ words. length words.items ≡ flash_size Self.SLOTS) }
        ensures fit { IfOk result (λ words. AreWords words.items) }
        ensures card { IfOk result (λ words. IsFactoryFlash kind words.items) };

    /// Returns the words of the board on a flash with these words.
    ///
    /// # Errors
    /// The words have no log, or one out of step, or there is too little memory.
    fn board_words(alloc: Global, words: Vec<u32>) -> Result<Vec<u32>, NoFlashCard>
        requires size { length words.items ≡ flash_size Self.SLOTS }
        requires fit { AreWords words.items }
        ensures log { IfOk result (λ _. HasFlashLog kind words.items) }
        ensures board { IfOk result (λ pages. pages.items ≡ words_on_flash kind words.items) }
        ensures none { IfErr result (λ why. IsFlashRefusal kind why words.items) };

    /// Its sizes are those of the kind.
    ghost slots_are: { kind.slots ≡ Self.SLOTS };

    ghost sectors_are: { kind.sectors ≡ Self.SECTORS };

    ghost words_are: { kind.sector_words ≡ Self.SECTOR_WORDS };
}

impl CardSizes for LargeSectors {
    ghost use Rattle.std.proofs.Common.{refl};
    ghost use Rattle.card_boards.specs.FlashImages.{large_kind};

    ghost kind = { large_kind };

    fn factory_words(alloc: Global) -> Result<Vec<u32>, AllocError> {
        let flash = blank_flash::<LargeSectors>(alloc)?;
        let board = with_factory_card(FlashBoard::new(FlashLog::new(flash)))?;
        Ok(board.into_log().into_flash().into_words())
    }

    fn board_words(alloc: Global, words: Vec<u32>) -> Result<Vec<u32>, NoFlashCard> {
        let flash: GarblingFlash<LargeSectors> = GarblingFlash::of_words(words, 0);
        let Ok(log) = FlashLog::open(flash) else {
            return Err(NoFlashCard::Log);
        };
        match words_on_board(alloc, FlashBoard::new(log)) {
            Ok(pages) => Ok(pages),
            Err(_) => Err(NoFlashCard::Memory),
        }
    }

    ghost slots_are = { refl };

    ghost sectors_are = { refl };

    ghost words_are = { refl };
}

impl CardSizes for SmallSectors {
    ghost use Rattle.std.proofs.Common.{refl};
    ghost use Rattle.card_boards.specs.FlashImages.{small_kind};

    ghost kind = { small_kind };

    fn factory_words(alloc: Global) -> Result<Vec<u32>, AllocError> {
        let flash = blank_sectors::<SmallSectors>(alloc)?;
        let board = with_factory_card(SectorBoard::new(SectorLog::new(flash)))?;
        Ok(board.into_log().into_flash().into_words())
    }

    fn board_words(alloc: Global, words: Vec<u32>) -> Result<Vec<u32>, NoFlashCard> {
        let flash: GarblingFlash<SmallSectors> = GarblingFlash::of_words(words, 0);
        let log = match SectorLog::open(flash) {
            Ok(log) => log,
            Err((_, SectorFault::OutOfStep)) => return Err(NoFlashCard::OutOfStep),
            // (this flash never fails, and no power loss is set)
            Err(_) => return Err(NoFlashCard::Log),
        };
        match words_on_board(alloc, SectorBoard::new(log)) {
            Ok(pages) => Ok(pages),
            Err(_) => Err(NoFlashCard::Memory),
        }
    }

    ghost slots_are = { refl };

    ghost sectors_are = { refl };

    ghost words_are = { refl };
}

//! A card is put on a blank simulated flash.
ghost use Rattle.std.specs.Prelude.{◌≡◌, false, IfOk};
ghost use Rattle.nvm_board.specs.Facts.{new_board};
ghost use Rattle.nvm_board.specs.declared.board.TheConstants.{LEAST_PAGES};
ghost use Rattle.flash_device.specs.FlashBlocks.{area_size};
ghost use Rattle.flash_moves.specs.Rings.{IsRing};
ghost use Rattle.sector_moves.specs.SectorSpares.{HasRoomForSteps};
ghost use Rattle.simulated_flashes.specs.EvenSectors.{even_sector};
ghost use Rattle.simulated_flashes.specs.GarblingStates.{garbling_state};
ghost use Rattle.simulated_flashes.specs.declared.garbling_flash.TheConstants.{FLASH_PAGES};
ghost use Rattle.card_start.specs.declared.memory_format.MemoryFormat.TheVariants as MemoryFormat;
ghost use Rattle.card_start.specs.Factory.{IsFactory, factory_card};
ghost use Rattle.command_base.specs.Finding.{Finds};
ghost use Rattle.card_boards.specs.FlashImages.{IsBlankFlash};

use card_start::format;
use flash_moves::format_flash;
use sector_log::format_sectors;
use simulated_boards::{CutFlashBoard, CutSocket};
use simulated_flashes::{FlashSizes, GarblingFlash, SmallSizes};
use std::alloc::{AllocError, Global};

/// Returns a flash with a log, of whose board all words are 0.
pub(crate) fn blank_flash<S: FlashSizes>(alloc: Global) -> Result<GarblingFlash<S>, AllocError>
    ensures log { IfOk result (λ flash. IsRing S.SLOTS (garbling_state flash).words) }
    ensures blank { IfOk result (λ flash. IsBlankFlash S.SLOTS (garbling_state flash)) }
{
    // (no operation here loses power, so the seed has no effect)
    let mut flash = GarblingFlash::new(alloc, 0)?;
    match format_flash(&mut flash) {
        Ok(()) => Ok(flash),
        Err(_) => Err(AllocError),
    }
}

/// Returns a flash of small sectors with a log in step, of whose board all words are 0.
pub(crate) fn blank_sectors<S: SmallSizes>(alloc: Global) -> Result<GarblingFlash<S>, AllocError>
    ensures log { IfOk result (λ flash. IsRing S.SLOTS (garbling_state flash).words) }
    ensures in_step { IfOk result (λ flash. HasRoomForSteps FLASH_PAGES S.SLOTS S.SECTORS
        (even_sector S.SECTOR_WORDS (area_size S.SLOTS) S.SECTORS) (garbling_state flash).words 0) }
    ensures blank { IfOk result (λ flash. IsBlankFlash S.SLOTS (garbling_state flash)) }
{
    let mut flash = GarblingFlash::new(alloc, 0)?;
    match format_sectors(&mut flash) {
        Ok(()) => Ok(flash),
        Err(_) => Err(AllocError),
    }
}

/// Returns a new board on a flash with the factory card in format 2.
///
/// # Errors
/// None on such a board: it takes all writes.
pub(crate) fn with_factory_card<B: CutSocket + Drop>(board: B) -> Result<B, AllocError>
    requires { B.facts board ≡ record (new_board LEAST_PAGES) { masks = false } }
    ensures card { IfOk result (λ b. Finds (B.facts b).words (factory_card 896)) }
    ensures words { IfOk result (λ b. IsFactory MemoryFormat.Two (B.facts b).words) }
{
    match format(CutFlashBoard::new(board)) {
        Ok(written) => Ok(written.into_board()),
        Err(_) => Err(AllocError),
    }
}

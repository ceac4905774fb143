//! Which slots of an area lie in which sector.
ghost use Rattle.std.specs.Prelude.{◌≡◌, ◌<◌, ◌≤◌, ◌+◌, ◌*◌, ℕ};
ghost use Rattle.flash_device.specs.FlashBlocks.{steps_of};
ghost use Rattle.flash_device.specs.FlashLogs.{base_in, slot_of};
ghost use Rattle.flash_device.specs.declared.layout.TheConstants.{STEP_PAGES};
ghost use Rattle.flash_area.specs.Spares.{spare_in, spare_sector};
ghost use Rattle.sector_moves.specs.SectorSpares.{spare_slot as first_slot, spare_slots as slots_below};

use crate::sector_flash::SectorFlash;
use flash_area::first_sector_of_spare;
use flash_device::{Flash, SLOT_WORDS};

/// The number of slots of the other area that end before its sector `n`.
pub fn spare_slots<F: Flash>(turn: u8, n: u16) -> u16
    requires { n ≤ F.SECTORS }
    ensures is { result ≡ slots_below F.SLOTS F.SECTORS F.sector_start turn n }
    ensures most { result ≤ F.SLOTS }
{
    let first = first_sector_of_spare::<F>(turn);
    ((F::sector_at(first + n) - F::sector_at(first)) / SLOT_WORDS) as u16
}

/// The first slot of the other area that begins in its sector `n`, or behind it.
pub fn spare_slot<F: SectorFlash>(turn: u8, n: u16) -> u16
    requires { n ≤ steps_of F.PAGES }
    ensures is { result ≡ first_slot F.SLOTS F.SECTORS F.sector_start turn n }
{
    let first = first_sector_of_spare::<F>(turn);
    ((F::sector_at(first + n) - F::sector_at(first) + (SLOT_WORDS - 1)) / SLOT_WORDS) as u16
}

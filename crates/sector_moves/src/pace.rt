//! When a move begins, and how many of its steps are left.
ghost use Rattle.std.specs.Prelude.{◌≡◌, ◌<◌, ◌≤◌};
ghost use Rattle.flash_device.specs.FlashBlocks.{steps_of};
ghost use Rattle.sector_moves.specs.SectorPlaces.{place_steps};
ghost use Rattle.sector_moves.specs.SectorSpares.{last_sectors, sector_lead};

use crate::sector_flash::SectorFlash;
use flash_device::{Flash, copy_steps};
use flash_moves::{PageMap, TRIES};

/// The number of free slots at which a move begins: one for each of its steps, and those of the tries of a write that
/// may fail.
pub fn lead<F: SectorFlash>() -> u16
    ensures { result ≡ sector_lead F.SECTORS }
{
    F::SECTORS + 1 + u16::from(TRIES)
}

/// The steps that are left of a move.
pub fn steps_left<F: SectorFlash>(place: &PageMap<F::Table>) -> u16
    requires fits { (place.now.erased ≤ last_sectors F.PAGES F.SECTORS) × (place.now.copied < steps_of F.PAGES) }
    ensures { result ≡ place_steps F.PAGES F.SECTORS place.now }
{
    let first = if place.turn == 1 { 1 } else { 0 };
    let sectors = F::SECTORS - copy_steps::<F>() - place.erased;
    first + sectors + (copy_steps::<F>() - place.copied)
}

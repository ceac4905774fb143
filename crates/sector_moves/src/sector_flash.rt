//! Flashes whose sectors are small.
ghost use Rattle.std.specs.Prelude.{◌<◌, ◌≤◌, ◌+◌, ◌*◌, ℕ};
ghost use Rattle.flash_device.specs.FlashBlocks.{steps_of};
ghost use Rattle.flash_device.specs.declared.layout.TheConstants.{SPARES, STEP_PAGES};
ghost use Rattle.flash_area.specs.Spares.{spare_sector};
ghost use Rattle.sector_moves.specs.SectorSpares.{sector_lead, spare_slot};

use flash_device::Flash;

/// A flash of small sectors: an area has more of them than a move has steps, and the slots for a move behind those of
/// the steps.
pub trait SectorFlash: Flash {
    /// An area has at least one sector more than a move has steps.
    ghost sectors_left: { steps_of Self.PAGES < Self.SECTORS };

    /// The sector of a step holds the slots of its pages, and one more, wherever slots begin in it.
    ghost sectors_hold: { (turn n : ℕ) → n < steps_of Self.PAGES
        → Self.sector_start (spare_sector Self.SECTORS turn + n) + 20 * (STEP_PAGES + 2)
        ≤ Self.sector_start (spare_sector Self.SECTORS turn + (n + 1)) };

    /// Behind the sectors of the steps, an area has more slots than the next move begins at.
    ghost slots_left: { (turn : ℕ)
        → spare_slot Self.SLOTS Self.SECTORS Self.sector_start turn (steps_of Self.PAGES) + sector_lead Self.SECTORS
        < Self.SLOTS };

    /// Behind the slots that a renewal may take for its copies, an area has those that the next move begins at.
    ghost copies_left: { Self.PAGES + SPARES + sector_lead Self.SECTORS ≤ Self.SLOTS };
}

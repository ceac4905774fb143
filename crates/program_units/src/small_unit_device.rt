//! Flash devices with program units whose sectors are small.
ghost use Rattle.std.specs.Prelude.{◌<◌, ◌≤◌, ◌+◌, ◌-◌, ℕ};
ghost use Rattle.flash_device.specs.FlashBlocks.{steps_of};
ghost use Rattle.flash_device.specs.declared.layout.TheConstants.{SPARES, STEP_PAGES};
ghost use Rattle.flash_area.specs.Spares.{spare_sector};
ghost use Rattle.sector_moves.specs.SectorSpares.{sector_lead};

use crate::unit_device::UnitDevice;

/// A device with program units and small sectors: an area has more of them than a move has steps, and the slots for a
/// move behind those of the steps. `UnitFlash` makes a flash of small sectors of it.
pub trait SmallUnitDevice: UnitDevice {
    /// An area has at least one sector more than a move has steps.
    ghost sectors_left: { steps_of Self.PAGES < Self.SECTORS };

    /// The sector of a step has a frame for each of its pages, and two more.
    ghost sectors_hold: { (turn n : ℕ) → n < steps_of Self.PAGES
        → Self.first_frame (spare_sector Self.SECTORS turn + n) + (STEP_PAGES + 2)
        ≤ Self.first_frame (spare_sector Self.SECTORS turn + (n + 1)) };

    /// Behind the sectors of the steps, an area has more slots than the next move begins at.
    ghost slots_left: { (turn : ℕ)
        → Self.first_frame (spare_sector Self.SECTORS turn + steps_of Self.PAGES)
        - Self.first_frame (spare_sector Self.SECTORS turn) + sector_lead Self.SECTORS < Self.SLOTS };

    /// Behind the slots that a renewal may take for its copies, an area has those that the next move begins at.
    ghost copies_left: { Self.PAGES + SPARES + sector_lead Self.SECTORS ≤ Self.SLOTS };
}

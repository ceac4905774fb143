//! Flash devices with program units and spare sectors that are small.
ghost use Rattle.std.specs.Prelude.{◌<◌, ◌≤◌, ◌+◌, ◌*◌};
ghost use Rattle.flash_device.specs.FlashBlocks.{steps_of};
ghost use Rattle.flash_device.specs.declared.layout.TheConstants.{SPARES as PASSED_SLOTS, STEP_PAGES};
ghost use Rattle.sector_moves.specs.SectorSpares.{sector_lead};

use crate::spare_unit_device::SpareUnitDevice;

/// A device with program units and spare sectors, all of them small: an area has more of them than a move has steps,
/// and the slots for a move behind those of the steps. `UnitFlash` over `SpareUnits` makes a flash of small sectors of
/// it.
pub trait SmallSpareUnitDevice: SpareUnitDevice {
    /// An area has at least one sector more than a move has steps.
    ghost sectors_left: { steps_of Self.PAGES < Self.SECTORS };

    /// A sector has a frame for each page of a step, and two more.
    ghost sectors_hold: { STEP_PAGES + 2 ≤ Self.SECTOR_FRAMES };

    /// Behind the sectors of the steps, an area has more slots than the next move begins at.
    ghost slots_left: { Self.SECTOR_FRAMES * steps_of Self.PAGES + sector_lead Self.SECTORS < Self.SLOTS };

    /// Behind the slots that a renewal may take for its copies, an area has those that the next move begins at.
    ghost copies_left: { Self.PAGES + PASSED_SLOTS + sector_lead Self.SECTORS ≤ Self.SLOTS };
}

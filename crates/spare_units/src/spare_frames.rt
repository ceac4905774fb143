//! Where the frames of a log lie on a device with program units and spare sectors.
ghost use Rattle.std.specs.Prelude.{◌≡◌, ◌<◌, ◌≤◌, ◌+◌, ◌*◌};
ghost use Rattle.flash_device.specs.PageTables.{IsPageTable};
ghost use Rattle.spare_units.specs.SpareFrames.{frame_part, frame_sector, sector_frame, unit_cell};
ghost use Rattle.spare_sectors.specs.SparePlaces.{all_sectors};
ghost use Rattle.program_units.specs.UnitFrames.{device_size, frame_count};
ghost use Rattle.program_units.specs.declared.unit_frames.TheConstants.{FRAME_WORDS};

use crate::spare_unit_device::SpareUnitDevice;
use program_units::FRAME_WORDS;
use spare_sectors::{MapDevice, lies_at};

/// The sector of a frame in its area, by its number there.
fn part_of<D: SpareUnitDevice>(frame: u32) -> u16
    requires { frame ≤ D.SLOTS }
    ensures is { result ≡ frame_part D.SECTORS D.SECTOR_FRAMES frame }
    ensures below { result < D.SECTORS }
{
    let number = frame / u32::from(D::SECTOR_FRAMES);
    let last = u32::from(D::SECTORS - 1);
    let part = if number < last { number } else { last };
    part as u16
}

/// The sector of a frame of the log.
pub fn sector_with<D: SpareUnitDevice>(frame: u32) -> u16
    requires { frame < frame_count D.SLOTS }
    ensures { result ≡ frame_sector D.SLOTS D.SECTORS D.SECTOR_FRAMES frame }
{
    let area = u32::from(D::SLOTS) + 1;
    if frame >= 2 * area {
        return 2 * D::SECTORS;
    }
    if frame >= area {
        return D::SECTORS + part_of::<D>(frame - area);
    }
    part_of::<D>(frame)
}

/// The first frame of a sector of the log.
pub fn first_frame_of<D: SpareUnitDevice>(sector: u16) -> u32
    requires { sector ≤ 2 * D.SECTORS + 1 }
    ensures { result ≡ sector_frame D.SLOTS D.SECTORS D.SECTOR_FRAMES sector }
{
    let area = u32::from(D::SLOTS) + 1;
    let each = u32::from(D::SECTOR_FRAMES);
    if sector < D::SECTORS {
        each * u32::from(sector)
    } else if sector < 2 * D::SECTORS {
        area + each * u32::from(sector - D::SECTORS)
    } else if sector == 2 * D::SECTORS {
        2 * area
    } else {
        2 * area + 1
    }
}

/// The place of a word of the log on the device.
pub fn cell_at<D: SpareUnitDevice>(device: &D, table: &D::Map, at: u32) -> u32
    requires at { at < device_size D.SLOTS }
    requires index { IsPageTable (2 * D.SECTORS + 1) (D.state device.now).map 0 D.SPARES (D.Map.entries table.now) }
    ensures is { result ≡ unit_cell D.SLOTS D.SECTORS D.SECTOR_FRAMES D.SPARES (D.state device.now).map at }
    ensures within { result < FRAME_WORDS * D.SECTOR_FRAMES * all_sectors D.SECTORS D.SPARES }
{
    let _ = device;
    let sector = sector_with::<D>(at / FRAME_WORDS);
    let offset = at - FRAME_WORDS * first_frame_of::<D>(sector);
    let size = FRAME_WORDS * u32::from(D::SECTOR_FRAMES);
    size * u32::from(lies_at::<D>(table, sector)) + offset
}

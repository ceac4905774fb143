//! Where the words of a log lie on a device with spare sectors.
ghost use Rattle.std.specs.Prelude.{◌≡◌, ◌<◌, ◌≤◌, ◌+◌, ◌-◌, ◌*◌, length, slice_index};
ghost use Rattle.flash_device.specs.FlashBlocks.{area_size, flash_size};
ghost use Rattle.spare_sectors.specs.SparePlaces.{all_sectors, lies_by, part_in, part_start, sector_of};

use crate::map_device::MapDevice;
use crate::spare_device::SpareDevice;
use flash_device::{PageTable, SLOT_WORDS};

/// A word of the log: its sector, and the number of words before it there.
#[derive(Clone, Copy)]
pub struct Spot {
    pub sector: u16,
    pub offset: u32,
}

/// The word of an area at an address there, in the sectors from `first` on.
fn spot_in<D: SpareDevice>(first: u16, at: u32) -> Spot
    requires first { first ≤ D.SECTORS }
    requires at { at < area_size D.SLOTS }
    ensures sector { result.sector ≡ first + part_in D.SECTORS D.SECTOR_SLOTS at }
    ensures offset { result.offset ≡ at - 20 * (D.SECTOR_SLOTS * part_in D.SECTORS D.SECTOR_SLOTS at) }
{
    let each = u32::from(D::SECTOR_SLOTS);
    let last = u32::from(D::SECTORS - 1);
    let number = at / SLOT_WORDS / each;
    let part = if number < last { number } else { last };
    Spot {
        sector: first + part as u16,
        offset: at - SLOT_WORDS * (each * part),
    }
}

/// The word of the log at an address.
pub fn spot_of<D: SpareDevice>(at: u32) -> Spot
    requires { at < flash_size D.SLOTS }
    ensures sector { result.sector ≡ sector_of D.SLOTS D.SECTORS D.SECTOR_SLOTS at }
    ensures offset { result.offset ≡ at - part_start D.SLOTS D.SECTORS D.SECTOR_SLOTS
        (sector_of D.SLOTS D.SECTORS D.SECTOR_SLOTS at) }
{
    let area = SLOT_WORDS * u32::from(D::SLOTS) + 2;
    if at >= area + area {
        return Spot {
            sector: 2 * D::SECTORS,
            offset: at - (area + area),
        };
    }
    if at >= area {
        return spot_in::<D>(D::SECTORS, at - area);
    }
    spot_in::<D>(0, at)
}

/// The first word of a sector in its area.
fn part_at<D: SpareDevice>(part: u16) -> u32
    requires { part < D.SECTORS }
    ensures is { result ≡ 20 * (D.SECTOR_SLOTS * part) }
    ensures most { result ≤ 20 * D.SLOTS }
{
    SLOT_WORDS * (u32::from(D::SECTOR_SLOTS) * u32::from(part))
}

/// The first address of a sector of the log.
pub fn start_of<D: SpareDevice>(sector: u16) -> u32
    ensures { result ≡ part_start D.SLOTS D.SECTORS D.SECTOR_SLOTS sector }
{
    let area = SLOT_WORDS * u32::from(D::SLOTS) + 2;
    if sector < D::SECTORS {
        part_at::<D>(sector)
    } else if sector < 2 * D::SECTORS {
        area + part_at::<D>(sector - D::SECTORS)
    } else if sector == 2 * D::SECTORS {
        area + area
    } else {
        area + area + 2
    }
}

/// The sector of the device that has a sector of the log, by the table.
pub fn lies_at<D: MapDevice>(table: &D::Map, sector: u16) -> u16
    requires sector { sector ≤ 2 * D.SECTORS }
    requires spare { slice_index (D.Map.entries table.now) sector ≤ D.SPARES }
    ensures is { result ≡ lies_by D.SECTORS (slice_index (D.Map.entries table.now) sector) sector }
    ensures within { result < all_sectors D.SECTORS D.SPARES }
{
    let number = table.entry(sector);
    if number == 0 {
        sector
    } else {
        2 * D::SECTORS + number
    }
}

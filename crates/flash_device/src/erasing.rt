//! Erases of sectors in a row.
ghost use Rattle.std.specs.Prelude.{◌≡◌, ◌<◌, ◌≤◌, ◌+◌, ◌-◌, ◌*◌, false, OnOk};
ghost use Rattle.flash_device.specs.FlashBlocks.{area_size, flash_size, witness_start};
ghost use Rattle.flash_device.specs.FlashCalls.{AreFilled, Lights, SameElsewhere};
ghost use Rattle.flash_device.specs.FlashLogs.{base_in};
ghost use Rattle.flash_device.specs.declared.flash.TheConstants.{BLANK};

use crate::flash::Flash;
use nvm_board::DeviceErr;

/// The number of the first sector of an area.
fn first_sector<F: Flash>(area: u8) -> u16
    requires { area < 2 }
    ensures start { F.sector_start result ≡ base_in F.SLOTS area }
    ensures end { F.sector_start (result + F.SECTORS) ≡ base_in F.SLOTS area + area_size F.SLOTS }
    ensures most { result ≤ F.SECTORS }
{
    if area == 0 { 0 } else { F::SECTORS }
}

/// Erases the sectors from one on, up to another.
fn erase_sectors<F: Flash>(flash: &mut F, from: u16, end: u16) -> Result<(), DeviceErr>
    requires lit { (F.state flash.old).dark ≡ false }
    requires order { from ≤ end }
    requires end { end ≤ 2 * F.SECTORS + 1 }
    ensures done { OnOk result (AreFilled (F.state flash.new).words (F.sector_start from)
        (F.sector_start end - F.sector_start from) BLANK) }
    ensures elsewhere { SameElsewhere (F.state flash.old).words (F.sector_start from)
        (F.sector_start end - F.sector_start from) (F.state flash.new).words }
    ensures work { (F.state flash.new).operations ≤ (F.state flash.old).operations + (end - from) }
    ensures erases { (F.state flash.new).erases ≤ (F.state flash.old).erases + (end - from) }
    ensures light { Lights (F.state flash.old) (F.state flash.new) result }
{
    for sector in from..end {
        flash.erase(sector)?;
    }
    Ok(())
}

/// Erases an area.
pub fn erase_area<F: Flash>(flash: &mut F, area: u8) -> Result<(), DeviceErr>
    requires lit { (F.state flash.old).dark ≡ false }
    requires area { area < 2 }
    ensures done { OnOk result (AreFilled (F.state flash.new).words (base_in F.SLOTS area)
        (area_size F.SLOTS) BLANK) }
    ensures elsewhere { SameElsewhere (F.state flash.old).words (base_in F.SLOTS area)
        (area_size F.SLOTS) (F.state flash.new).words }
    ensures work { (F.state flash.new).operations ≤ (F.state flash.old).operations + F.SECTORS }
    ensures erases { (F.state flash.new).erases ≤ (F.state flash.old).erases + F.SECTORS }
    ensures light { Lights (F.state flash.old) (F.state flash.new) result }
{
    let first = first_sector::<F>(area);
    erase_sectors(flash, first, first + F::SECTORS)
}

/// Erases the witness.
pub fn erase_witness<F: Flash>(flash: &mut F) -> Result<(), DeviceErr>
    requires lit { (F.state flash.old).dark ≡ false }
    ensures done { OnOk result (AreFilled (F.state flash.new).words (witness_start F.SLOTS) 2 BLANK) }
    ensures elsewhere { SameElsewhere (F.state flash.old).words (witness_start F.SLOTS) 2 (F.state flash.new).words }
    ensures work { (F.state flash.new).operations ≤ (F.state flash.old).operations + 1 }
    ensures erases { (F.state flash.new).erases ≤ (F.state flash.old).erases + 1 }
    ensures light { Lights (F.state flash.old) (F.state flash.new) result }
{
    flash.erase(2 * F::SECTORS)
}

/// Erases all sectors.
pub fn erase_flash<F: Flash>(flash: &mut F) -> Result<(), DeviceErr>
    requires lit { (F.state flash.old).dark ≡ false }
    ensures done { OnOk result (AreFilled (F.state flash.new).words 0 (flash_size F.SLOTS) BLANK) }
    ensures work { (F.state flash.new).operations ≤ (F.state flash.old).operations + (2 * F.SECTORS + 1) }
    ensures light { Lights (F.state flash.old) (F.state flash.new) result }
{
    erase_sectors(flash, 0, 2 * F::SECTORS + 1)
}

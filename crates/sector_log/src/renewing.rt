//! A renewal: it leaves nothing in the flash but the pages as they are.
ghost use Rattle.std.specs.Prelude.{◌≡◌, ◌<◌, ◌≤◌, ◌+◌, ◌*◌, true, false, OnOk};
ghost use Rattle.flash_device.specs.FlashCalls.{Costs, Tries};
ghost use Rattle.flash_device.specs.FlashLogs.{words_of};
ghost use Rattle.flash_log.specs.Renewals.{HoldsOnlyPages};
ghost use Rattle.sector_moves.specs.SectorPlaces.{IsSectorLog};
ghost use Rattle.sector_moves.specs.SectorSpares.{sector_lead};

use flash_log::leave_area;
use flash_moves::PageMap;
use nvm_board::DeviceErr;
use sector_moves::{SectorFlash, find_pages, take_step};

/// Finds the pages, and ends the move that is under way. Then no step is due.
fn end_steps<F: SectorFlash>(flash: &mut F, place: &mut PageMap<F::Table>) -> Result<(), DeviceErr>
    requires lit { (F.state flash.old).dark ≡ false }
    requires log { IsSectorLog F.Table.entries F.PAGES F.SLOTS F.SECTORS F.sector_start (F.state flash.old).words
        place.old }
    ensures words { words_of F.PAGES F.SLOTS (F.state flash.new).words
        ≡ words_of F.PAGES F.SLOTS (F.state flash.old).words }
    ensures log { IsSectorLog F.Table.entries F.PAGES F.SLOTS F.SECTORS F.sector_start (F.state flash.new).words
        place.new }
    ensures ready { OnOk result (place.new.ready ≡ true) }
    ensures idle { OnOk result (place.new.next + sector_lead F.SECTORS < F.SLOTS) }
    ensures light { Tries 1 (F.state flash.old) (F.state flash.new) result }
    ensures work { Costs (36 * (F.SECTORS + 1)) 2 (F.state flash.old) (F.state flash.new) }
    ensures erases { (F.state flash.new).erases ≤ (F.state flash.old).erases + F.SECTORS + 1 }
{
    find_pages(flash, place)?;
    for _ in 0..F::SECTORS + 1 {
        take_step(flash, place)?;
    }
    Ok(())
}

/// Leaves nothing in the flash but the pages as they are. At every exit they are the same.
pub fn renew_at<F: SectorFlash>(
    flash: &mut F,
    place: &mut PageMap<F::Table>,
) -> Result<(), DeviceErr>
    requires lit { (F.state flash.old).dark ≡ false }
    requires log { IsSectorLog F.Table.entries F.PAGES F.SLOTS F.SECTORS F.sector_start (F.state flash.old).words
        place.old }
    ensures words { words_of F.PAGES F.SLOTS (F.state flash.new).words
        ≡ words_of F.PAGES F.SLOTS (F.state flash.old).words }
    ensures log { IsSectorLog F.Table.entries F.PAGES F.SLOTS F.SECTORS F.sector_start (F.state flash.new).words
        place.new }
    ensures only { OnOk result (HoldsOnlyPages F.PAGES F.SLOTS (F.state flash.new).words) }
    ensures light { Tries 1 (F.state flash.old) (F.state flash.new) result }
    ensures work { Costs (2 * F.PAGES + 5 + 2 * F.SECTORS + 36 * (F.SECTORS + 1)) 2 (F.state flash.old)
        (F.state flash.new) }
    ensures erases { (F.state flash.new).erases ≤ (F.state flash.old).erases + 3 * F.SECTORS + 2 }
{
    end_steps(flash, place)?;
    place.erased = 0;
    place.copied = 0;
    place.behind = 0;
    place.older = 0;
    let result = leave_area(flash, place);
    // The next call looks for the pages: the log of other flashes counts the sectors of its move in another way.
    place.ready = false;
    place.tried = 0;
    result
}

//! A log is made on a flash, or found there.
ghost use Rattle.std.specs.Prelude.{◌≡◌, ◌<◌, ◌≤◌, ◌+◌, ◌-◌, ◌*◌, ℕ, true, false, slice_index, IfNone, IfOk, IfSome};
ghost use Rattle.std.specs.Prelude.{OnOk};
ghost use Rattle.flash_device.specs.FlashBlocks.{steps_of};
ghost use Rattle.flash_device.specs.FlashCalls.{Lights};
ghost use Rattle.flash_device.specs.FlashLogs.{words_of};
ghost use Rattle.flash_moves.specs.Places.{FindsFree};
ghost use Rattle.flash_moves.specs.Rings.{IsRing};
ghost use Rattle.sector_moves.specs.SectorPlaces.{KeepsStep, place_steps};
ghost use Rattle.sector_moves.specs.SectorSpares.{HasFewestSteps, HasOlderCopy, HasRoomForSteps, last_sectors};
ghost use Rattle.sector_log.specs.SectorOpenings.{IsNotInStep};

use flash_device::{Flash, PageTable};
use flash_moves::{PageMap, format_flash, has_ring};
use nvm_board::DeviceErr;
use sector_moves::{SectorFlash, find_place, steps_left};

/// The reason why a flash isn't taken.
#[derive(Clone, Copy, Debug, PartialEq, Eq)]
pub enum SectorFault {
    /// No log is on it.
    NoLog,
    /// Its log isn't in step: fewer slots are free than steps of the move are left. `FlashLog` takes it.
    OutOfStep,
    /// Power was lost.
    PowerLost,
    /// The flash failed.
    Fault,
}

/// A place that has to be found.
pub fn new_place<T: PageTable>() -> PageMap<T>
    ensures unready { result.ready ≡ false }
    ensures tried { result.tried ≡ 0 }
{
    PageMap {
        ready: false,
        table: T::blank(),
        turn: 0,
        next: 0,
        tried: 0,
        erased: 0,
        copied: 0,
        behind: 0,
        older: 0,
    }
}

/// Returns true if the area in use has a free slot for each step that is left.
fn has_room<F: SectorFlash>(place: &PageMap<F::Table>) -> bool
    requires fits { (place.now.erased ≤ last_sectors F.PAGES F.SECTORS) × (place.now.copied < steps_of F.PAGES) }
    ensures yes { result ≡ true → place_steps F.PAGES F.SECTORS place.now + place.now.next ≤ F.SLOTS }
    ensures no { result ≡ false → F.SLOTS < place_steps F.PAGES F.SECTORS place.now + place.now.next }
{
    steps_left::<F>(place) <= F::SLOTS.saturating_sub(place.next)
}

/// Looks for a log in step. Returns why the words of the flash are not taken, if so.
pub fn find_log<F: SectorFlash>(
    flash: &mut F,
    place: &mut PageMap<F::Table>,
) -> Result<Option<SectorFault>, DeviceErr>
    requires lit { (F.state flash.old).dark ≡ false }
    requires place { (place.old.ready ≡ false) × (place.old.tried ≡ 0) }
    ensures same { (place.new.ready ≡ false) × (place.new.tried ≡ 0) }
    ensures found { IfOk result (λ o. IfNone o (IsRing F.SLOTS (F.state flash.old).words
        × KeepsStep F.Table.entries F.PAGES F.SLOTS F.SECTORS F.sector_start (F.state flash.old).words place.new)) }
    ensures free { IfOk result (λ o. IfNone o (FindsFree F.SLOTS (F.state flash.old).words
        (F.SLOTS - place.new.next))) }
    ensures fewest { IfOk result (λ o. IfNone o (HasFewestSteps F.PAGES F.SLOTS F.SECTORS F.sector_start
        (F.state flash.old).words place.new.turn (F.SLOTS - place.new.next)
        (place_steps F.PAGES F.SECTORS place.new))) }
    ensures older { IfOk result (λ o. IfNone o (HasOlderCopy F.SLOTS F.SECTORS F.sector_start
        (F.state flash.old).words place.new.turn place.new.copied place.new.older)) }
    ensures none { IfOk result (λ o. IfSome o (λ why. IsNotInStep F.PAGES F.SLOTS F.SECTORS F.sector_start
        (F.state flash.old).words why)) }
    ensures words { (F.state flash.new).words ≡ (F.state flash.old).words }
    ensures work { (F.state flash.new).operations ≡ (F.state flash.old).operations }
    ensures erases { (F.state flash.new).erases ≡ (F.state flash.old).erases }
    ensures light { Lights (F.state flash.old) (F.state flash.new) result }
{
    if !has_ring(flash)? {
        return Ok(Some(SectorFault::NoLog));
    }
    find_place(flash, place)?;
    if !has_room::<F>(place) {
        return Ok(Some(SectorFault::OutOfStep));
    }
    Ok(None)
}

/// Makes a flash of which all words of the board are 0.
pub fn format_sectors<F: SectorFlash>(flash: &mut F) -> Result<(), DeviceErr>
    requires { (F.state flash.old).dark ≡ false }
    ensures ring { OnOk result (IsRing F.SLOTS (F.state flash.new).words) }
    ensures in_step { OnOk result (HasRoomForSteps F.PAGES F.SLOTS F.SECTORS F.sector_start
        (F.state flash.new).words 0) }
    ensures blank { OnOk result ((i : ℕ) → i < 16 * F.PAGES
        → slice_index (words_of F.PAGES F.SLOTS (F.state flash.new).words) i ≡ 0) }
    ensures work { (F.state flash.new).operations ≤ (F.state flash.old).operations + 2 * F.SECTORS + 2 }
    ensures light { Lights (F.state flash.old) (F.state flash.new) result }
{
    format_flash(flash)?;
    Ok(())
}

//! The steps of a move: each erases one sector of the other area, and the last one passes the turn to it.
ghost use Rattle.std.specs.Prelude.{◌≡◌, ◌≢◌, ◌⊎◌, ◌<◌, ◌≤◌, ◌+◌, ℕ, true, false, IsErrOf, OnErr, OnOk};
ghost use Rattle.nvm_board.specs.declared.board.DeviceErr.TheVariants as DeviceErr;
ghost use Rattle.flash_device.specs.FlashBlocks.{steps_of};
ghost use Rattle.flash_device.specs.FlashCalls.{Costs, Tries};
ghost use Rattle.flash_device.specs.FlashLogs.{words_of};
ghost use Rattle.flash_moves.specs.declared.ahead.TheConstants.{TRIES};
ghost use Rattle.sector_moves.specs.SectorPlaces.{EndsSectorStep, HasTakenStep, IsSectorLog, StaysAtStep};
ghost use Rattle.sector_moves.specs.SectorSpares.{HasMovedSteps, HoldsSlots, last_sectors, sector_lead};
ghost use Rattle.sector_moves.specs.SectorSpares.{spare_slot as spare_slot_of};

use crate::filling::{STEP_SLOTS, fill_sector};
use crate::finding::area_again;
use crate::layout::spare_slot;
use crate::pace::lead;
use crate::sector_flash::SectorFlash;
use flash_area::first_sector_of_spare;
use flash_device::{Flash, PageTable, copy_steps};
use flash_moves::{PageMap, pass_turn, pass_witness};
use nvm_board::DeviceErr;

/// Passes the turn to the witness. If its mark failed, the turn is looked for.
fn pass_on<F: SectorFlash>(flash: &mut F, place: &mut PageMap<F::Table>) -> Result<(), DeviceErr>
    requires lit { (F.state flash.old).dark ≡ false }
    requires log { IsSectorLog F.Table.entries F.PAGES F.SLOTS F.SECTORS F.sector_start (F.state flash.old).words
        place.old }
    requires ready { place.old.ready ≡ true }
    requires turn { place.old.turn ≡ 1 }
    ensures words { words_of F.PAGES F.SLOTS (F.state flash.new).words
        ≡ words_of F.PAGES F.SLOTS (F.state flash.old).words }
    ensures log { IsSectorLog F.Table.entries F.PAGES F.SLOTS F.SECTORS F.sector_start (F.state flash.new).words
        place.new }
    ensures step { OnOk result (HasTakenStep F.PAGES F.SLOTS F.SECTORS place.new) }
    ensures ends { OnOk result (EndsSectorStep F.PAGES F.SLOTS F.SECTORS place.old place.new) }
    ensures stays { OnErr result (place.new.ready ≡ true → StaysAtStep place.old place.new) }
    ensures unread { IsErrOf result DeviceErr.Fault → place.new.ready ≡ false
        → (F.state flash.old).faults + TRIES ≤ (F.state flash.new).faults }
    ensures next { OnOk result (place.new.next ≡ place.old.next) }
    ensures light { Tries 1 (F.state flash.old) (F.state flash.new) result }
    ensures work { Costs 2 2 (F.state flash.old) (F.state flash.new) }
    ensures most { (F.state flash.new).operations ≤ (F.state flash.old).operations + 2 }
    ensures erases { (F.state flash.new).erases ≤ (F.state flash.old).erases + 1 }
{
    place.ready = false;
    match pass_witness(flash) {
        Ok(()) => {}
        Err(DeviceErr::PowerLost) => return Err(DeviceErr::PowerLost),
        Err(DeviceErr::Fault) => {
            let turn = area_again(flash, &mut place.table)?;
            if turn == 1 {
                place.ready = true;
                return Err(DeviceErr::Fault);
            }
            begin_steps(place);
            return Ok(());
        }
    }
    begin_steps(place);
    Ok(())
}

/// The witness has the turn, and no sector of the other area is erased.
fn begin_steps<T: PageTable>(place: &mut PageMap<T>)
    ensures { place.new ≡ record place.old { ready = true; turn = 2; erased = 0; copied = 0; older = 0 } }
{
    place.turn = 2;
    place.erased = 0;
    place.copied = 0;
    place.older = 0;
    place.ready = true;
}

/// Erases the next of the last sectors of the other area. If that fails, the move has come as far as before.
fn erase_next<F: SectorFlash>(flash: &mut F, place: &mut PageMap<F::Table>) -> Result<(), DeviceErr>
    requires lit { (F.state flash.old).dark ≡ false }
    requires log { IsSectorLog F.Table.entries F.PAGES F.SLOTS F.SECTORS F.sector_start (F.state flash.old).words
        place.old }
    requires ready { place.old.ready ≡ true }
    requires moves { (place.old.turn ≢ 1) × (place.old.erased < last_sectors F.PAGES F.SECTORS) }
    ensures words { words_of F.PAGES F.SLOTS (F.state flash.new).words
        ≡ words_of F.PAGES F.SLOTS (F.state flash.old).words }
    ensures log { IsSectorLog F.Table.entries F.PAGES F.SLOTS F.SECTORS F.sector_start (F.state flash.new).words
        place.new }
    ensures step { OnOk result (HasTakenStep F.PAGES F.SLOTS F.SECTORS place.new) }
    ensures ends { OnOk result (EndsSectorStep F.PAGES F.SLOTS F.SECTORS place.old place.new) }
    ensures stays { OnErr result (place.new ≡ place.old) }
    ensures next { OnOk result (place.new.next ≡ place.old.next) }
    ensures light { Tries 1 (F.state flash.old) (F.state flash.new) result }
    ensures work { Costs 1 2 (F.state flash.old) (F.state flash.new) }
    ensures most { (F.state flash.new).operations ≤ (F.state flash.old).operations + 1 }
    ensures erases { (F.state flash.new).erases ≤ (F.state flash.old).erases + 1 }
{
    flash.erase(first_sector_of_spare::<F>(place.turn) + (copy_steps::<F>() + place.erased))?;
    place.erased += 1;
    Ok(())
}

/// Programs the mark that passes the turn to the other area, which has all pages. If it failed, the turn is looked for.
fn pass_once<F: SectorFlash>(flash: &mut F, place: &mut PageMap<F::Table>) -> Result<(), DeviceErr>
    requires lit { (F.state flash.old).dark ≡ false }
    requires log { IsSectorLog F.Table.entries F.PAGES F.SLOTS F.SECTORS F.sector_start (F.state flash.old).words
        place.old }
    requires ready { place.old.ready ≡ true }
    requires turn { place.old.turn ≢ 1 }
    requires pages { HasMovedSteps F.PAGES F.SLOTS F.SECTORS F.sector_start (F.state flash.old).words place.old.turn }
    ensures words { words_of F.PAGES F.SLOTS (F.state flash.new).words
        ≡ words_of F.PAGES F.SLOTS (F.state flash.old).words }
    ensures log { IsSectorLog F.Table.entries F.PAGES F.SLOTS F.SECTORS F.sector_start (F.state flash.new).words
        place.new }
    ensures step { OnOk result (HasTakenStep F.PAGES F.SLOTS F.SECTORS place.new) }
    ensures ends { OnOk result (place.new.next + sector_lead F.SECTORS < F.SLOTS) }
    ensures stays { OnErr result (place.new.ready ≡ true → StaysAtStep place.old place.new) }
    ensures unread { IsErrOf result DeviceErr.Fault → place.new.ready ≡ false
        → (F.state flash.old).faults + TRIES ≤ (F.state flash.new).faults }
    // Where the turn stays, the other area still has all pages.
    ensures moved { IsErrOf result DeviceErr.Fault → place.new.ready ≡ true
        → HasMovedSteps F.PAGES F.SLOTS F.SECTORS F.sector_start (F.state flash.new).words place.old.turn }
    ensures next { OnOk result (place.new.next
        ≡ spare_slot_of F.SLOTS F.SECTORS F.sector_start place.old.turn (steps_of F.PAGES)) }
    ensures light { Tries 1 (F.state flash.old) (F.state flash.new) result }
    ensures work { Costs 1 2 (F.state flash.old) (F.state flash.new) }
    ensures most { (F.state flash.new).operations ≤ (F.state flash.old).operations + 1 }
    ensures erases { (F.state flash.new).erases ≡ (F.state flash.old).erases }
{
    let was = (place.turn, place.next, place.older);
    let taken = (place.erased, place.copied);
    let behind = spare_slot::<F>(place.turn, copy_steps::<F>());
    place.behind = behind;
    place.ready = false;
    match pass_turn(flash, place) {
        Ok(()) => return Ok(()),
        Err(DeviceErr::PowerLost) => return Err(DeviceErr::PowerLost),
        Err(DeviceErr::Fault) => {}
    }
    let turn = area_again(flash, &mut place.table)?;
    if turn == was.0 {
        put_place(place, was.0, was.1, taken, was.2);
        return Err(DeviceErr::Fault);
    }
    put_place(place, turn, behind, (0, 0), 0);
    Ok(())
}

/// The place is known again: the turn, the first slot that is free, and how far the move has come.
fn put_place<T: PageTable>(
    place: &mut PageMap<T>,
    turn: u8,
    next: u16,
    taken: (u16, u16),
    older: u16,
)
    ensures { place.new ≡ record place.old {
      ready = true;
      turn = turn;
      next = next;
      erased = taken.0;
      copied = taken.1;
      older = older;
    } }
{
    place.turn = turn;
    place.next = next;
    place.erased = taken.0;
    place.copied = taken.1;
    place.older = older;
    place.ready = true;
}

/// Passes the turn to the other area, which has all pages. A mark that fails and leaves the turn is blank, so it is
/// tried again, up to so many times.
fn end_move<F: SectorFlash>(
    flash: &mut F,
    place: &mut PageMap<F::Table>,
    tries: u16,
) -> Result<(), DeviceErr>
    requires lit { (F.state flash.old).dark ≡ false }
    requires log { IsSectorLog F.Table.entries F.PAGES F.SLOTS F.SECTORS F.sector_start (F.state flash.old).words
        place.old }
    requires ready { place.old.ready ≡ true }
    requires turn { place.old.turn ≢ 1 }
    requires pages { HasMovedSteps F.PAGES F.SLOTS F.SECTORS F.sector_start (F.state flash.old).words place.old.turn }
    requires tries { 1 ≤ tries }
    ensures words { words_of F.PAGES F.SLOTS (F.state flash.new).words
        ≡ words_of F.PAGES F.SLOTS (F.state flash.old).words }
    ensures log { IsSectorLog F.Table.entries F.PAGES F.SLOTS F.SECTORS F.sector_start (F.state flash.new).words
        place.new }
    ensures step { OnOk result (HasTakenStep F.PAGES F.SLOTS F.SECTORS place.new) }
    ensures ends { OnOk result (place.new.next + sector_lead F.SECTORS < F.SLOTS) }
    ensures stays { OnErr result (place.new.ready ≡ true → StaysAtStep place.old place.new) }
    ensures unread { IsErrOf result DeviceErr.Fault → place.new.ready ≡ false
        → (F.state flash.old).faults + TRIES ≤ (F.state flash.new).faults }
    // It fails only behind as many Faults as the mark has tries, or as a look for the turn has.
    ensures keeps_trying { IsErrOf result DeviceErr.Fault
        → ((F.state flash.old).faults + TRIES ≤ (F.state flash.new).faults)
        ⊎ ((F.state flash.old).faults + tries ≤ (F.state flash.new).faults) }
    ensures next { OnOk result (place.new.next
        ≡ spare_slot_of F.SLOTS F.SECTORS F.sector_start place.old.turn (steps_of F.PAGES)) }
    ensures light { Tries 1 (F.state flash.old) (F.state flash.new) result }
    ensures work { Costs 1 2 (F.state flash.old) (F.state flash.new) }
    ensures most { (F.state flash.new).operations ≤ (F.state flash.old).operations + tries }
    ensures erases { (F.state flash.new).erases ≡ (F.state flash.old).erases }
{
    for _ in 1..tries {
        match pass_once(flash, place) {
            Err(DeviceErr::Fault) => {}
            ended => return ended,
        }
        if !place.ready {
            return Err(DeviceErr::Fault);
        }
    }
    pass_once(flash, place)
}

/// Fills the next sector of the other area with copies. Behind the last one it passes the turn. If that fails, the move
/// has come as far as before.
fn fill_next<F: SectorFlash>(flash: &mut F, place: &mut PageMap<F::Table>) -> Result<(), DeviceErr>
    requires lit { (F.state flash.old).dark ≡ false }
    requires log { IsSectorLog F.Table.entries F.PAGES F.SLOTS F.SECTORS F.sector_start (F.state flash.old).words
        place.old }
    requires ready { place.old.ready ≡ true }
    requires moves { (place.old.turn ≢ 1) × (place.old.erased ≡ last_sectors F.PAGES F.SECTORS) }
    requires due { F.SLOTS ≤ place.old.next + sector_lead F.SECTORS }
    ensures words { words_of F.PAGES F.SLOTS (F.state flash.new).words
        ≡ words_of F.PAGES F.SLOTS (F.state flash.old).words }
    ensures log { IsSectorLog F.Table.entries F.PAGES F.SLOTS F.SECTORS F.sector_start (F.state flash.new).words
        place.new }
    ensures step { OnOk result (HasTakenStep F.PAGES F.SLOTS F.SECTORS place.new) }
    ensures ends { OnOk result (EndsSectorStep F.PAGES F.SLOTS F.SECTORS place.old place.new) }
    ensures stays { OnErr result (place.new.ready ≡ true → StaysAtStep place.old place.new) }
    ensures unread { IsErrOf result DeviceErr.Fault → place.new.ready ≡ false
        → (F.state flash.old).faults + TRIES ≤ (F.state flash.new).faults }
    // Behind fewer Faults than its sector has slots over, up to seven, it fails only where nothing but its erase was
    // begun.
    ensures keeps_trying { (t : ℕ) → t < TRIES → HoldsSlots F.PAGES F.SLOTS F.SECTORS F.sector_start t
        → IsErrOf result DeviceErr.Fault → ((F.state flash.old).faults + t ≤ (F.state flash.new).faults)
        ⊎ ((F.state flash.new).operations ≤ (F.state flash.old).operations + 1) }
    // The next slot stays, or a move has ended, and all slots behind those of its steps are free.
    ensures next { OnOk result ((place.new.next ≡ place.old.next) ⊎ (place.new.next
        ≡ spare_slot_of F.SLOTS F.SECTORS F.sector_start place.old.turn (steps_of F.PAGES))) }
    ensures light { Tries 1 (F.state flash.old) (F.state flash.new) result }
    ensures work { Costs 36 2 (F.state flash.old) (F.state flash.new) }
    ensures most { (F.state flash.new).operations ≤ (F.state flash.old).operations + 48 }
    ensures erases { (F.state flash.new).erases ≤ (F.state flash.old).erases + 1 }
{
    let taken = fill_sector(flash, place.turn, &place.table, place.copied, place.older)?;
    if place.copied + 1 == copy_steps::<F>() {
        // The programs of slots that weren't taken are left for its mark.
        return end_move(flash, place, 1 + 2 * (STEP_SLOTS - taken));
    }
    place.older = 0;
    place.copied += 1;
    Ok(())
}

/// Takes a step of the move, if the area in use is nearly full.
pub fn take_step<F: SectorFlash>(
    flash: &mut F,
    place: &mut PageMap<F::Table>,
) -> Result<(), DeviceErr>
    requires lit { (F.state flash.old).dark ≡ false }
    requires log { IsSectorLog F.Table.entries F.PAGES F.SLOTS F.SECTORS F.sector_start (F.state flash.old).words
        place.old }
    requires ready { place.old.ready ≡ true }
    ensures words { words_of F.PAGES F.SLOTS (F.state flash.new).words
        ≡ words_of F.PAGES F.SLOTS (F.state flash.old).words }
    ensures log { IsSectorLog F.Table.entries F.PAGES F.SLOTS F.SECTORS F.sector_start (F.state flash.new).words
        place.new }
    ensures step { OnOk result (HasTakenStep F.PAGES F.SLOTS F.SECTORS place.new) }
    ensures ends { OnOk result (EndsSectorStep F.PAGES F.SLOTS F.SECTORS place.old place.new) }
    ensures stays { OnErr result (place.new.ready ≡ true → StaysAtStep place.old place.new) }
    // If it fails, and the pages are not known again, many more calls failed.
    ensures unread { IsErrOf result DeviceErr.Fault → place.new.ready ≡ false
        → (F.state flash.old).faults + TRIES ≤ (F.state flash.new).faults }
    // If it has a page to copy again: behind fewer Faults than its sector has slots over, up to seven, it fails only
    // where nothing but its erase was begun.
    ensures keeps_trying { (t : ℕ) → t < TRIES → HoldsSlots F.PAGES F.SLOTS F.SECTORS F.sector_start t
        → place.old.older ≢ 0 → IsErrOf result DeviceErr.Fault
        → ((F.state flash.old).faults + t ≤ (F.state flash.new).faults)
        ⊎ ((F.state flash.new).operations ≤ (F.state flash.old).operations + 1) }
    ensures idle { place.old.next + sector_lead F.SECTORS < F.SLOTS
        → (place.new ≡ place.old) × (F.state flash.new ≡ F.state flash.old) }
    // The next slot stays, or a move has ended, and all slots behind those of its steps are free.
    ensures next { OnOk result ((place.new.next ≡ place.old.next) ⊎ (place.new.next
        ≡ spare_slot_of F.SLOTS F.SECTORS F.sector_start place.old.turn (steps_of F.PAGES))) }
    ensures light { Tries 1 (F.state flash.old) (F.state flash.new) result }
    ensures work { Costs 36 2 (F.state flash.old) (F.state flash.new) }
    // However often the flash fails, it erases one sector, and programs 47 times.
    ensures most { (F.state flash.new).operations ≤ (F.state flash.old).operations + 48 }
    ensures erases { (F.state flash.new).erases ≤ (F.state flash.old).erases + 1 }
{
    if F::SLOTS - place.next > lead::<F>() {
        return Ok(());
    }
    if place.turn == 1 {
        return pass_on(flash, place);
    }
    if place.erased < F::SECTORS - copy_steps::<F>() {
        return erase_next(flash, place);
    }
    fill_next(flash, place)
}

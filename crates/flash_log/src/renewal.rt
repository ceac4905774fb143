//! A renewal: it leaves nothing in the flash but the pages as they are.
ghost use Rattle.std.specs.Prelude.{◌≡◌, ◌≢◌, ◌<◌, ◌≤◌, ◌+◌, ◌-◌, ◌*◌, ℕ, true, false, IfOk, OnErr, OnOk};
ghost use Rattle.flash_device.specs.FlashBlocks.{area_size};
ghost use Rattle.flash_device.specs.FlashCalls.{AreFilled, Costs, Lights, SameElsewhere, Tries};
ghost use Rattle.flash_device.specs.FlashLogs.{base_in, words_of};
ghost use Rattle.flash_device.specs.PageTables.{IsPageTable};
ghost use Rattle.flash_moves.specs.Paces.{HasFreeSlots, IsRoomy, KeepsFree, KeepsPace, RenewsOnly, WillKeepPace};
ghost use Rattle.flash_moves.specs.Paces.{KeepsRoom, failed_since, free_slots, lead_of, lost_since, move_steps_of};
ghost use Rattle.flash_moves.specs.Places.{IsLog};
ghost use Rattle.flash_area.specs.HeldPages.{HavePages, HoldsPage};
ghost use Rattle.flash_log.specs.Renewals.{AreClean, HasLastMark, HoldsOnlyPages, IsCleanSlot};
ghost use Rattle.flash_area.specs.Spares.{spare_in};
ghost use Rattle.flash_device.specs.declared.flash.TheConstants.{BLANK};

use crate::steps::{find_pages, make_room};
use flash_area::{home, is_blank, spare};
use flash_device::{Flash, NUMBER_PLACE, PageTable, UNUSED_PLACE, erase_area, slot_at};
use flash_moves::{PageMap, copy_older, lead, move_steps, pass_on, take_step};
use nvm_board::DeviceErr;

/// Passes the turn on from 1, where the other area has the mark that shows the turn.
fn leave_turn_1<F: Flash>(flash: &mut F, place: &mut PageMap<F::Table>) -> Result<(), DeviceErr>
    requires lit { (F.state flash.old).dark ≡ false }
    requires log { IsLog F.Table.entries F.PAGES F.SLOTS F.SECTORS F.sector_start (F.state flash.old).words place.old }
    requires ready { place.old.ready ≡ true }
    ensures words { words_of F.PAGES F.SLOTS (F.state flash.new).words
        ≡ words_of F.PAGES F.SLOTS (F.state flash.old).words }
    ensures log { IsLog F.Table.entries F.PAGES F.SLOTS F.SECTORS F.sector_start (F.state flash.new).words place.new }
    ensures ready { OnOk result (place.new.ready ≡ true) }
    ensures turn { OnOk result (place.new.turn ≢ 1) }
    ensures unready { OnErr result (place.new.ready ≡ false) }
    ensures next { OnOk result (place.new.next ≡ place.old.next) }
    ensures tried { place.new.tried ≡ place.old.tried }
    ensures have { OnOk result (HavePages F.PAGES F.SLOTS (F.state flash.old).words
        (base_in F.SLOTS place.old.turn) place.old.next
        → HavePages F.PAGES F.SLOTS (F.state flash.new).words (base_in F.SLOTS place.new.turn) place.new.next) }
    ensures last { OnOk result (HasLastMark F.SLOTS (F.state flash.old).words place.old.turn
        → HasLastMark F.SLOTS (F.state flash.new).words place.new.turn) }
    ensures keeps_free { KeepsFree F.PAGES F.SLOTS (F.state flash.old) (F.state flash.new) }
    ensures keeps_room { KeepsRoom F.PAGES F.SLOTS (F.state flash.old).words (F.state flash.new).words }
    ensures light { Tries 1 (F.state flash.old) (F.state flash.new) result }
    ensures work { Costs 2 2 (F.state flash.old) (F.state flash.new) }
    ensures erases { (F.state flash.new).erases ≤ (F.state flash.old).erases + 1 }
    ensures idle { place.old.turn ≢ 1 → (F.state flash.new).erases ≡ (F.state flash.old).erases }
{
    if place.turn != 1 {
        return Ok(());
    }
    pass_on(flash, place)?;
    Ok(())
}

/// Moves all pages to the other area, each into one slot, and passes the turn to 0 or 2.
fn move_pages<F: Flash>(flash: &mut F, place: &mut PageMap<F::Table>) -> Result<(), DeviceErr>
    requires lit { (F.state flash.old).dark ≡ false }
    requires log { IsLog F.Table.entries F.PAGES F.SLOTS F.SECTORS F.sector_start (F.state flash.old).words place.old }
    requires ready { place.old.ready ≡ true }
    ensures words { words_of F.PAGES F.SLOTS (F.state flash.new).words
        ≡ words_of F.PAGES F.SLOTS (F.state flash.old).words }
    ensures log { IsLog F.Table.entries F.PAGES F.SLOTS F.SECTORS F.sector_start (F.state flash.new).words place.new }
    ensures ready { OnOk result ((place.new.ready ≡ true) × (place.new.turn ≢ 1)) }
    ensures unready { OnErr result (place.new.ready ≡ false) }
    ensures tried { place.new.tried ≡ 0 }
    ensures have { OnOk result ((F.state flash.new).faults ≡ (F.state flash.old).faults
        → HavePages F.PAGES F.SLOTS (F.state flash.new).words (base_in F.SLOTS place.new.turn) place.new.next) }
    ensures last { OnOk result (HasLastMark F.SLOTS (F.state flash.new).words place.new.turn) }
    ensures passes { OnOk result (place.new.next + (F.state flash.old).faults ≤ F.PAGES + (F.state flash.new).faults) }
    ensures keeps_free { KeepsFree F.PAGES F.SLOTS (F.state flash.old) (F.state flash.new) }
    ensures keeps_room { KeepsRoom F.PAGES F.SLOTS (F.state flash.old).words (F.state flash.new).words }
    ensures light { Tries 1 (F.state flash.old) (F.state flash.new) result }
    ensures work { Costs (2 * F.PAGES + 5 + F.SECTORS) 2 (F.state flash.old) (F.state flash.new) }
    ensures erases { (F.state flash.new).erases ≤ (F.state flash.old).erases + F.SECTORS + 1 }
{
    // To `make_room`, the area in use is full.
    place.next = F::SLOTS;
    make_room(flash, place)?;
    leave_turn_1(flash, place)?;
    Ok(())
}

/// Erases the other area. Its old records go, and the move has no sector left to erase.
fn erase_spare<F: Flash>(flash: &mut F, place: &mut PageMap<F::Table>) -> Result<(), DeviceErr>
    requires lit { (F.state flash.old).dark ≡ false }
    requires log { IsLog F.Table.entries F.PAGES F.SLOTS F.SECTORS F.sector_start (F.state flash.old).words place.old }
    requires ready { (place.old.ready ≡ true) × (place.old.turn ≢ 1) }
    ensures words { words_of F.PAGES F.SLOTS (F.state flash.new).words
        ≡ words_of F.PAGES F.SLOTS (F.state flash.old).words }
    ensures log { IsLog F.Table.entries F.PAGES F.SLOTS F.SECTORS F.sector_start (F.state flash.new).words place.new }
    ensures step { OnOk result (place.new
        ≡ record place.old { ready = true; erased = F.SECTORS; copied = 0; behind = 0; older = 0 }) }
    ensures unready { OnErr result (place.new.ready ≡ false) }
    ensures tried { place.new.tried ≡ place.old.tried }
    ensures blank { OnOk result (AreFilled (F.state flash.new).words (spare_in F.SLOTS place.old.turn)
        (area_size F.SLOTS) BLANK) }
    ensures elsewhere { SameElsewhere (F.state flash.old).words (spare_in F.SLOTS place.old.turn) (area_size F.SLOTS)
        (F.state flash.new).words }
    ensures keeps_free { KeepsFree F.PAGES F.SLOTS (F.state flash.old) (F.state flash.new) }
    ensures keeps_room { KeepsRoom F.PAGES F.SLOTS (F.state flash.old).words (F.state flash.new).words }
    ensures light { Tries 1 (F.state flash.old) (F.state flash.new) result }
    ensures work { Costs F.SECTORS 2 (F.state flash.old) (F.state flash.new) }
    ensures erases { (F.state flash.new).erases ≤ (F.state flash.old).erases + F.SECTORS }
{
    place.ready = false;
    erase_area(flash, spare(place.turn))?;
    place.erased = F::SECTORS;
    place.copied = 0;
    place.behind = 0;
    place.older = 0;
    place.ready = true;
    Ok(())
}

/// Returns true if a slot is blank, or holds a page as it is. Only a slot in which the flash failed doesn't.
fn is_clean<F: Flash>(
    flash: &mut F,
    area: u8,
    table: &F::Table,
    slot: u16,
) -> Result<bool, DeviceErr>
    requires lit { (F.state flash.old).dark ≡ false }
    requires below { slot < F.SLOTS }
    requires index { IsPageTable F.PAGES (F.state flash.old).words (base_in F.SLOTS area) F.SLOTS
        (F.Table.entries table.now) }
    ensures clean { IfOk result (λ b. b ≡ true
        → IsCleanSlot F.PAGES F.SLOTS (F.state flash.old).words (base_in F.SLOTS area) slot) }
    ensures unclean { IfOk result (λ b. b ≡ false
        → ¬ HoldsPage F.PAGES F.SLOTS (F.state flash.old).words (base_in F.SLOTS area) slot) }
    ensures words { (F.state flash.new).words ≡ (F.state flash.old).words }
    ensures work { (F.state flash.new).operations ≡ (F.state flash.old).operations }
    ensures erases { (F.state flash.new).erases ≡ (F.state flash.old).erases }
    ensures light { Lights (F.state flash.old) (F.state flash.new) result }
{
    let at = slot_at::<F>(area, slot);
    if is_blank(flash, at)? {
        return Ok(true);
    }
    let number = flash.read(at + NUMBER_PLACE)?;
    let unused = flash.read(at + UNUSED_PLACE)?;
    if number >= u32::from(F::PAGES) || unused != 0 {
        return Ok(false);
    }
    Ok(table.entry(number as u16) == slot + 1)
}

/// Returns true if the slots below one are blank, or hold pages as they are.
fn are_clean<F: Flash>(
    flash: &mut F,
    area: u8,
    table: &F::Table,
    next: u16,
) -> Result<bool, DeviceErr>
    requires lit { (F.state flash.old).dark ≡ false }
    requires below { next ≤ F.SLOTS }
    requires index { IsPageTable F.PAGES (F.state flash.old).words (base_in F.SLOTS area) F.SLOTS
        (F.Table.entries table.now) }
    ensures clean { IfOk result (λ b. b ≡ true
        → AreClean F.PAGES F.SLOTS (F.state flash.old).words (base_in F.SLOTS area) next) }
    ensures unclean { IfOk result (λ b. b ≡ false
        → ¬ HavePages F.PAGES F.SLOTS (F.state flash.old).words (base_in F.SLOTS area) next) }
    ensures words { (F.state flash.new).words ≡ (F.state flash.old).words }
    ensures work { (F.state flash.new).operations ≡ (F.state flash.old).operations }
    ensures erases { (F.state flash.new).erases ≡ (F.state flash.old).erases }
    ensures light { Lights (F.state flash.old) (F.state flash.new) result }
{
    for slot in 0..next {
        if !is_clean(flash, area, table, slot)? {
            return Ok(false);
        }
    }
    Ok(true)
}

/// Looks for the pages anew, and ends the move that is under way if the area in use has no room for another.
fn end_move<F: Flash>(flash: &mut F, place: &mut PageMap<F::Table>) -> Result<(), DeviceErr>
    requires lit { (F.state flash.old).dark ≡ false }
    requires log { IsLog F.Table.entries F.PAGES F.SLOTS F.SECTORS F.sector_start (F.state flash.old).words place.old }
    ensures words { words_of F.PAGES F.SLOTS (F.state flash.new).words
        ≡ words_of F.PAGES F.SLOTS (F.state flash.old).words }
    ensures log { IsLog F.Table.entries F.PAGES F.SLOTS F.SECTORS F.sector_start (F.state flash.new).words place.new }
    ensures ready { OnOk result (place.new.ready ≡ true) }
    ensures calm { HasFreeSlots F.SLOTS (lead_of F.PAGES F.SECTORS) (F.state flash.old).words
        → ((F.state flash.new).words ≡ (F.state flash.old).words)
        × ((F.state flash.new).operations ≡ (F.state flash.old).operations)
        × ((F.state flash.new).erases ≡ (F.state flash.old).erases) }
    ensures room { OnOk result ((extra : ℕ)
        → IsRoomy F.PAGES F.SLOTS F.SECTORS (extra + failed_since (F.state flash.old) (F.state flash.new))
        → WillKeepPace F.PAGES F.SLOTS F.SECTORS F.sector_start (F.state flash.old).words extra place.old
        → HasFreeSlots F.SLOTS (lead_of F.PAGES F.SECTORS) (F.state flash.new).words) }
    ensures stands { (extra : ℕ)
        → IsRoomy F.PAGES F.SLOTS F.SECTORS (extra + failed_since (F.state flash.old) (F.state flash.new))
        → WillKeepPace F.PAGES F.SLOTS F.SECTORS F.sector_start (F.state flash.old).words extra place.old
        → WillKeepPace F.PAGES F.SLOTS F.SECTORS F.sector_start (F.state flash.new).words
        (extra + lost_since (F.state flash.old) (F.state flash.new)) place.new }
    ensures light { Tries 1 (F.state flash.old) (F.state flash.new) result }
    ensures work { Costs (2 + 33 * move_steps_of F.PAGES F.SECTORS) 2 (F.state flash.old) (F.state flash.new) }
    ensures erases { (F.state flash.new).erases ≤ (F.state flash.old).erases + move_steps_of F.PAGES F.SECTORS }
{
    place.ready = false;
    place.tried = 0;
    find_pages(flash, place)?;
    if F::SLOTS - place.next >= lead::<F>() {
        return Ok(());
    }
    copy_older(flash, place)?;
    for _ in 0..move_steps::<F>() {
        take_step(flash, place)?;
    }
    Ok(())
}

/// Moves all pages to the other area, and erases the one that they leave.
pub fn leave_area<F: Flash>(flash: &mut F, place: &mut PageMap<F::Table>) -> Result<(), DeviceErr>
    requires lit { (F.state flash.old).dark ≡ false }
    requires log { IsLog F.Table.entries F.PAGES F.SLOTS F.SECTORS F.sector_start (F.state flash.old).words place.old }
    requires ready { place.old.ready ≡ true }
    ensures words { words_of F.PAGES F.SLOTS (F.state flash.new).words
        ≡ words_of F.PAGES F.SLOTS (F.state flash.old).words }
    ensures log { IsLog F.Table.entries F.PAGES F.SLOTS F.SECTORS F.sector_start (F.state flash.new).words place.new }
    ensures only { OnOk result (HoldsOnlyPages F.PAGES F.SLOTS (F.state flash.new).words) }
    ensures pace { OnOk result (IsRoomy F.PAGES F.SLOTS F.SECTORS 0
        → (F.state flash.new).faults ≤ (F.state flash.old).faults + lead_of F.PAGES F.SECTORS
        → KeepsPace F.PAGES F.SLOTS F.SECTORS 0 place.new) }
    ensures free { OnOk result (F.SLOTS + (F.state flash.old).faults
        ≤ free_slots F.SLOTS place.new + F.PAGES + (F.state flash.new).faults) }
    ensures keeps_free { KeepsFree F.PAGES F.SLOTS (F.state flash.old) (F.state flash.new) }
    ensures keeps_room { KeepsRoom F.PAGES F.SLOTS (F.state flash.old).words (F.state flash.new).words }
    // With the slots for a move it is in pace at every exit.
    ensures stands { F.PAGES + ((F.state flash.new).faults - (F.state flash.old).faults) + lead_of F.PAGES F.SECTORS
        ≤ F.SLOTS → HasFreeSlots F.SLOTS (lead_of F.PAGES F.SECTORS) (F.state flash.old).words
        → WillKeepPace F.PAGES F.SLOTS F.SECTORS F.sector_start (F.state flash.new).words 0 place.new }
    ensures light { Tries 1 (F.state flash.old) (F.state flash.new) result }
    ensures work { Costs (2 * F.PAGES + 5 + 2 * F.SECTORS) 2 (F.state flash.old) (F.state flash.new) }
    ensures erases { (F.state flash.new).erases ≤ (F.state flash.old).erases + 2 * F.SECTORS + 1 }
{
    move_pages(flash, place)?;
    erase_spare(flash, place)?;
    if are_clean(flash, home(place.turn), &place.table, place.next)? {
        return Ok(());
    }
    Err(DeviceErr::Fault)
}

/// Leaves nothing in the flash but the pages as they are. At every exit they are the same. A slot in which the flash
/// failed may hold a part of a page: then it's a Fault.
pub fn renew_pages<F: Flash>(flash: &mut F, place: &mut PageMap<F::Table>) -> Result<(), DeviceErr>
    requires lit { (F.state flash.old).dark ≡ false }
    requires log { IsLog F.Table.entries F.PAGES F.SLOTS F.SECTORS F.sector_start (F.state flash.old).words place.old }
    ensures words { words_of F.PAGES F.SLOTS (F.state flash.new).words
        ≡ words_of F.PAGES F.SLOTS (F.state flash.old).words }
    ensures log { IsLog F.Table.entries F.PAGES F.SLOTS F.SECTORS F.sector_start (F.state flash.new).words place.new }
    ensures only { OnOk result (HoldsOnlyPages F.PAGES F.SLOTS (F.state flash.new).words) }
    ensures pace { OnOk result (IsRoomy F.PAGES F.SLOTS F.SECTORS 0
        → (F.state flash.new).faults ≤ (F.state flash.old).faults + lead_of F.PAGES F.SECTORS
        → KeepsPace F.PAGES F.SLOTS F.SECTORS 0 place.new) }
    ensures free { OnOk result (F.SLOTS + (F.state flash.old).faults
        ≤ free_slots F.SLOTS place.new + F.PAGES + (F.state flash.new).faults) }
    ensures keeps_free { HasFreeSlots F.SLOTS (lead_of F.PAGES F.SECTORS) (F.state flash.old).words
        → KeepsFree F.PAGES F.SLOTS (F.state flash.old) (F.state flash.new) }
    ensures stands { (extra : ℕ)
        → IsRoomy F.PAGES F.SLOTS F.SECTORS (extra + failed_since (F.state flash.old) (F.state flash.new))
        → WillKeepPace F.PAGES F.SLOTS F.SECTORS F.sector_start (F.state flash.old).words extra place.old
        → WillKeepPace F.PAGES F.SLOTS F.SECTORS F.sector_start (F.state flash.new).words
        (extra + lost_since (F.state flash.old) (F.state flash.new)) place.new }
    ensures light { Tries 1 (F.state flash.old) (F.state flash.new) result }
    ensures work { Costs (2 * F.PAGES + 7 + 2 * F.SECTORS + 33 * move_steps_of F.PAGES F.SECTORS) 2 (F.state flash.old)
        (F.state flash.new) }
    ensures erases { (F.state flash.new).erases
        ≤ (F.state flash.old).erases + 2 * F.SECTORS + 1 + move_steps_of F.PAGES F.SECTORS }
    ensures calm { HasFreeSlots F.SLOTS (lead_of F.PAGES F.SECTORS) (F.state flash.old).words
        → RenewsOnly F.PAGES F.SECTORS (F.state flash.old) (F.state flash.new) }
{
    end_move(flash, place)?;
    leave_area(flash, place)?;
    Ok(())
}

//! Where the pages are, and how far a move has come, is found in the flash.
ghost use Rattle.std.specs.Prelude.{◌≡◌, ◌<◌, ◌≤◌, ◌+◌, ◌-◌, ℕ, true, false, IfOk, OnErr, OnOk};
ghost use Rattle.flash_device.specs.FlashCalls.{Lights, Tries};
ghost use Rattle.flash_device.specs.FlashLogs.{base_in, turn_of};
ghost use Rattle.flash_device.specs.PageTables.{IsPageTable};
ghost use Rattle.flash_moves.specs.Paces.{free_slots, is_fresh};
ghost use Rattle.flash_moves.specs.Places.{FindsFree};
ghost use Rattle.flash_moves.specs.declared.ahead.TheConstants.{TRIES};
ghost use Rattle.sector_moves.specs.SectorPlaces.{IsFirstFrom, IsSectorLog, IsSectorPlace, KeepsStep, place_steps};
ghost use Rattle.sector_moves.specs.SectorSpares.{HasFewestSteps, HasOlderCopy, HasRoomForSteps, IsSectorSpare};
ghost use Rattle.sector_moves.specs.SectorSpares.{sector_lead, sector_steps};

use crate::pace::lead;
use crate::progress::{StepsTaken, find_steps};
use crate::sector_flash::SectorFlash;
use flash_area::{home, scan};
use flash_device::{Flash, PageTable};
use flash_moves::{PageMap, TRIES, find_turn};
use nvm_board::DeviceErr;

/// Finds how far the move has come. While it isn't due, that is not looked for: it has not begun.
fn steps_at<F: SectorFlash>(
    flash: &mut F,
    turn: u8,
    table: &F::Table,
    next: u16,
) -> Result<StepsTaken, DeviceErr>
    requires lit { (F.state flash.old).dark ≡ false }
    requires turn { (turn < 3) × (turn ≡ turn_of F.SLOTS (F.state flash.old).words) }
    requires index { IsPageTable F.PAGES (F.state flash.old).words (base_in F.SLOTS turn) F.SLOTS
        (F.Table.entries table.now) }
    requires next { next ≤ F.SLOTS }
    ensures spare { IfOk result (λ r. IsSectorSpare F.PAGES F.SLOTS F.SECTORS F.sector_start
        (F.state flash.old).words turn r.erased r.copied r.older) }
    ensures older { IfOk result (λ r. HasOlderCopy F.SLOTS F.SECTORS F.sector_start (F.state flash.old).words turn
        r.copied r.older) }
    ensures idle { IfOk result (λ r. 0 < r.copied → F.SLOTS ≤ next + sector_lead F.SECTORS) }
    ensures room { IfOk result (λ r. (e c o : ℕ) → IsSectorSpare F.PAGES F.SLOTS F.SECTORS F.sector_start
        (F.state flash.old).words turn e c o → sector_steps F.PAGES F.SECTORS turn e c + next ≤ F.SLOTS
        → sector_steps F.PAGES F.SECTORS turn r.erased r.copied + next ≤ F.SLOTS) }
    ensures fewest { IfOk result (λ r. HasFewestSteps F.PAGES F.SLOTS F.SECTORS F.sector_start
        (F.state flash.old).words turn (F.SLOTS - next) (sector_steps F.PAGES F.SECTORS turn r.erased r.copied)) }
    ensures words { (F.state flash.new).words ≡ (F.state flash.old).words }
    ensures work { (F.state flash.new).operations ≡ (F.state flash.old).operations }
    ensures erases { (F.state flash.new).erases ≡ (F.state flash.old).erases }
    ensures light { Lights (F.state flash.old) (F.state flash.new) result }
{
    if F::SLOTS - next > lead::<F>() {
        return Ok(StepsTaken {
            erased: 0,
            copied: 0,
            older: 0,
        });
    }
    let taken = find_steps(flash, turn, table, next)?;
    Ok(taken)
}

/// Finds the pages, and how far the move has come.
pub fn find_place<F: SectorFlash>(
    flash: &mut F,
    place: &mut PageMap<F::Table>,
) -> Result<(), DeviceErr>
    requires lit { (F.state flash.old).dark ≡ false }
    ensures words { (F.state flash.new).words ≡ (F.state flash.old).words }
    ensures work { (F.state flash.new).operations ≡ (F.state flash.old).operations }
    ensures erases { (F.state flash.new).erases ≡ (F.state flash.old).erases }
    ensures same { (place.new.ready ≡ place.old.ready) × (place.new.tried ≡ place.old.tried) }
    ensures place { OnOk result (IsSectorPlace F.Table.entries F.PAGES F.SLOTS F.SECTORS F.sector_start
        (F.state flash.old).words place.new) }
    // Only a copy that differs may be older.
    ensures older { OnOk result (HasOlderCopy F.SLOTS F.SECTORS F.sector_start (F.state flash.old).words place.new.turn
        place.new.copied place.new.older) }
    // If any progress that the flash shows fits, what is found does.
    ensures keeps { OnOk result (HasRoomForSteps F.PAGES F.SLOTS F.SECTORS F.sector_start (F.state flash.old).words
        place.old.tried → KeepsStep F.Table.entries F.PAGES F.SLOTS F.SECTORS F.sector_start
        (F.state flash.old).words place.new) }
    ensures fewest { OnOk result (HasFewestSteps F.PAGES F.SLOTS F.SECTORS F.sector_start (F.state flash.old).words
        place.new.turn (F.SLOTS - place.new.next) (place_steps F.PAGES F.SECTORS place.new)) }
    // If none was tried, all free slots are found.
    ensures found { OnOk result (place.old.tried ≡ 0
        → FindsFree F.SLOTS (F.state flash.old).words (F.SLOTS - place.new.next)) }
    // No slot is passed over but those that were tried.
    ensures first { OnOk result (IsFirstFrom F.SLOTS (F.state flash.old).words (base_in F.SLOTS place.new.turn)
        place.old.tried place.new.next) }
    ensures light { Lights (F.state flash.old) (F.state flash.new) result }
{
    let turn = find_turn(flash)?;
    let first = scan(flash, home(turn), &mut place.table)?;
    let next = first.max(place.tried.min(F::SLOTS));
    let taken = steps_at(flash, turn, &place.table, next)?;
    place.turn = turn;
    place.next = next;
    place.erased = taken.erased;
    place.copied = taken.copied;
    place.older = taken.older;
    Ok(())
}

/// Finds the pages, if they are not known.
pub fn find_pages<F: SectorFlash>(
    flash: &mut F,
    place: &mut PageMap<F::Table>,
) -> Result<(), DeviceErr>
    requires lit { (F.state flash.old).dark ≡ false }
    requires log { IsSectorLog F.Table.entries F.PAGES F.SLOTS F.SECTORS F.sector_start (F.state flash.old).words
        place.old }
    ensures words { (F.state flash.new).words ≡ (F.state flash.old).words }
    ensures work { (F.state flash.new).operations ≡ (F.state flash.old).operations }
    ensures erases { (F.state flash.new).erases ≡ (F.state flash.old).erases }
    ensures log { IsSectorLog F.Table.entries F.PAGES F.SLOTS F.SECTORS F.sector_start (F.state flash.new).words
        place.new }
    ensures ready { OnOk result (place.new.ready ≡ true) }
    ensures known { place.old.ready ≡ true → (place.new ≡ place.old) × (F.state flash.new ≡ F.state flash.old) }
    ensures found { OnOk result (is_fresh place.old ≡ true
        → FindsFree F.SLOTS (F.state flash.old).words (free_slots F.SLOTS place.new)) }
    ensures fewest { OnOk result (place.old.ready ≡ false → HasFewestSteps F.PAGES F.SLOTS F.SECTORS F.sector_start
        (F.state flash.old).words place.new.turn (F.SLOTS - place.new.next)
        (place_steps F.PAGES F.SECTORS place.new)) }
    ensures older { OnOk result (place.old.ready ≡ false → HasOlderCopy F.SLOTS F.SECTORS F.sector_start
        (F.state flash.old).words place.new.turn place.new.copied place.new.older) }
    ensures first { OnOk result (place.old.ready ≡ false → IsFirstFrom F.SLOTS (F.state flash.old).words
        (base_in F.SLOTS place.new.turn) place.old.tried place.new.next) }
    ensures unready { OnErr result (place.new.ready ≡ false) }
    ensures tried { place.new.tried ≡ place.old.tried }
    ensures light { Lights (F.state flash.old) (F.state flash.new) result }
{
    if place.ready {
        return Ok(());
    }
    find_place(flash, place)?;
    place.ready = true;
    Ok(())
}

/// Finds the turn, and the slot of each page.
fn find_area<F: SectorFlash>(flash: &mut F, table: &mut F::Table) -> Result<u8, DeviceErr>
    requires lit { (F.state flash.old).dark ≡ false }
    ensures turn { IfOk result (λ t. (t ≡ turn_of F.SLOTS (F.state flash.new).words) × (t < 3)) }
    ensures index { IfOk result (λ t. IsPageTable F.PAGES (F.state flash.new).words (base_in F.SLOTS t) F.SLOTS
        (F.Table.entries table.new)) }
    ensures words { (F.state flash.new).words ≡ (F.state flash.old).words }
    ensures work { (F.state flash.new).operations ≡ (F.state flash.old).operations }
    ensures erases { (F.state flash.new).erases ≡ (F.state flash.old).erases }
    ensures light { Tries 1 (F.state flash.old) (F.state flash.new) result }
{
    let turn = find_turn(flash)?;
    scan(flash, home(turn), table)?;
    Ok(turn)
}

/// Finds the turn, and the slot of each page, behind a program that failed: a mark may have passed the turn. A Fault of
/// the flash is returned only if as many tries failed.
pub fn area_again<F: SectorFlash>(flash: &mut F, table: &mut F::Table) -> Result<u8, DeviceErr>
    requires lit { (F.state flash.old).dark ≡ false }
    ensures turn { IfOk result (λ t. (t ≡ turn_of F.SLOTS (F.state flash.new).words) × (t < 3)) }
    ensures index { IfOk result (λ t. IsPageTable F.PAGES (F.state flash.new).words (base_in F.SLOTS t) F.SLOTS
        (F.Table.entries table.new)) }
    ensures words { (F.state flash.new).words ≡ (F.state flash.old).words }
    ensures work { (F.state flash.new).operations ≡ (F.state flash.old).operations }
    ensures erases { (F.state flash.new).erases ≡ (F.state flash.old).erases }
    ensures light { Tries TRIES (F.state flash.old) (F.state flash.new) result }
{
    for _ in 1..TRIES {
        match find_area(flash, table) {
            Err(DeviceErr::Fault) => {}
            ended => return ended,
        }
    }
    find_area(flash, table)
}

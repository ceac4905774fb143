//! A read, and a write with its tries.
ghost use Rattle.std.specs.Prelude.{◌≡◌, ◌≢◌, ◌⊎◌, ◌<◌, ◌≤◌, ◌+◌, ◌-◌, ◌*◌, ℕ, true, false, length, slice_index, IfOk};
ghost use Rattle.std.specs.Prelude.{IsErrOf, OnErr, OnOk};
ghost use Rattle.nvm_board.specs.History.{written};
ghost use Rattle.nvm_board.specs.declared.board.DeviceErr.TheVariants as DeviceErr;
ghost use Rattle.flash_device.specs.FlashBlocks.{steps_of};
ghost use Rattle.flash_device.specs.FlashCalls.{Costs, Lights, Tries};
ghost use Rattle.flash_device.specs.FlashLogs.{base_in, find, turn_of, words_of};
ghost use Rattle.flash_moves.specs.Paces.{free_slots, is_fresh};
ghost use Rattle.flash_moves.specs.Places.{FindsFree};
ghost use Rattle.flash_moves.specs.declared.ahead.TheConstants.{TRIES};
ghost use Rattle.sector_moves.specs.SectorPlaces.{IsFirstFrom, IsSectorLog, StaysAtStep, place_steps};
ghost use Rattle.sector_moves.specs.SectorSpares.{HasFewestSteps, HasOlderCopy, last_sectors, sector_lead};
ghost use Rattle.sector_moves.specs.SectorSpares.{spare_slot as spare_slot_of};
ghost use Rattle.sector_log.specs.SectorLogs.{HasBeside, GivesUpBehind, KeepsBeside, StaysInStep, known_older};
ghost use Rattle.sector_log.specs.SectorLogs.{known_sector_steps, sector_log_value};

use flash_area::{home, older_page, read_page_word};
use flash_device::{Flash, PageTable};
use flash_moves::{PageMap, TRIES, write_run};
use nvm_board::DeviceErr;
use sector_moves::{SectorFlash, area_again, find_pages, steps_left, take_step};

/// Reads a word of the board.
pub fn read_at<F: SectorFlash>(
    flash: &mut F,
    place: &mut PageMap<F::Table>,
    at: u16,
) -> Result<u32, DeviceErr>
    requires lit { (F.state flash.old).dark ≡ false }
    requires log { IsSectorLog F.Table.entries F.PAGES F.SLOTS F.SECTORS F.sector_start (F.state flash.old).words
        place.old }
    requires at { at < 16 * F.PAGES }
    ensures word { IfOk result (λ w. w ≡ slice_index (words_of F.PAGES F.SLOTS (F.state flash.old).words) at) }
    ensures words { (F.state flash.new).words ≡ (F.state flash.old).words }
    ensures work { (F.state flash.new).operations ≡ (F.state flash.old).operations }
    ensures erases { (F.state flash.new).erases ≡ (F.state flash.old).erases }
    ensures log { IsSectorLog F.Table.entries F.PAGES F.SLOTS F.SECTORS F.sector_start (F.state flash.new).words
        place.new }
    ensures ready { OnOk result (place.new.ready ≡ true) }
    ensures known { place.old.ready ≡ true → place.new ≡ place.old }
    ensures tried { place.new.tried ≡ place.old.tried }
    ensures first { place.old.ready ≡ false → place.new.ready ≡ true → IsFirstFrom F.SLOTS (F.state flash.old).words
        (base_in F.SLOTS place.new.turn) place.old.tried place.new.next }
    ensures found { OnOk result (is_fresh place.old ≡ true
        → FindsFree F.SLOTS (F.state flash.old).words (free_slots F.SLOTS place.new)) }
    ensures fewest { place.old.ready ≡ false → place.new.ready ≡ true → HasFewestSteps F.PAGES F.SLOTS F.SECTORS
        F.sector_start (F.state flash.old).words place.new.turn (F.SLOTS - place.new.next)
        (place_steps F.PAGES F.SECTORS place.new) }
    ensures older { place.old.ready ≡ false → place.new.ready ≡ true → HasOlderCopy F.SLOTS F.SECTORS F.sector_start
        (F.state flash.old).words place.new.turn place.new.copied place.new.older }
    ensures looks { is_fresh place.old ≡ true → (is_fresh place.new ≡ true)
        ⊎ FindsFree F.SLOTS (F.state flash.old).words (free_slots F.SLOTS place.new) }
    ensures light { Lights (F.state flash.old) (F.state flash.new) result }
{
    find_pages(flash, place)?;
    let word = read_page_word(flash, home(place.turn), &place.table, at / 16, at % 16)?;
    Ok(word)
}

/// Finds the pages, if they are not known. A Fault of the flash is returned only if as many tries failed.
fn look<F: SectorFlash>(flash: &mut F, place: &mut PageMap<F::Table>) -> Result<(), DeviceErr>
    requires lit { (F.state flash.old).dark ≡ false }
    requires log { IsSectorLog F.Table.entries F.PAGES F.SLOTS F.SECTORS F.sector_start (F.state flash.old).words
        place.old }
    ensures words { (F.state flash.new).words ≡ (F.state flash.old).words }
    ensures work { (F.state flash.new).operations ≡ (F.state flash.old).operations }
    ensures erases { (F.state flash.new).erases ≡ (F.state flash.old).erases }
    ensures log { IsSectorLog F.Table.entries F.PAGES F.SLOTS F.SECTORS F.sector_start (F.state flash.new).words
        place.new }
    ensures ready { OnOk result (place.new.ready ≡ true) }
    ensures known { place.old.ready ≡ true → (place.new ≡ place.old) × (F.state flash.new ≡ F.state flash.old) }
    ensures light { Tries TRIES (F.state flash.old) (F.state flash.new) result }
{
    for _ in 1..TRIES {
        match find_pages(flash, place) {
            Err(DeviceErr::Fault) => {}
            ended => return ended,
        }
    }
    find_pages(flash, place)
}

/// Returns true if a slot is free beside those of the steps that are left, and the place is known.
fn has_slot<F: SectorFlash>(place: &PageMap<F::Table>) -> bool
    requires fits { place.now.ready ≡ true → (place.now.erased ≤ last_sectors F.PAGES F.SECTORS)
        × (place.now.copied < steps_of F.PAGES) × (place.now.next ≤ F.SLOTS) }
    ensures yes { result ≡ true → (place.now.ready ≡ true)
        × (place_steps F.PAGES F.SECTORS place.now + place.now.next < F.SLOTS) }
    ensures no { result ≡ false → place.now.ready ≡ true
        → F.SLOTS ≤ place_steps F.PAGES F.SECTORS place.now + place.now.next }
{
    place.ready && steps_left::<F>(place) < F::SLOTS - place.next
}

/// Puts a record of a page into the next slot. At every exit all words of the run are old, or all are new. If that
/// fails, the slot is passed over, and the pages are known again.
fn write_once<F: SectorFlash>(
    flash: &mut F,
    place: &mut PageMap<F::Table>,
    page: u16,
    first: u8,
    words: &[u32],
) -> Result<(), DeviceErr>
    requires lit { (F.state flash.old).dark ≡ false }
    requires log { IsSectorLog F.Table.entries F.PAGES F.SLOTS F.SECTORS F.sector_start (F.state flash.old).words
        place.old }
    requires takes { StaysInStep F.PAGES F.SLOTS F.SECTORS page place.old }
    requires page { page < F.PAGES }
    requires run { first + length words.now ≤ 16 }
    ensures whole { (words_of F.PAGES F.SLOTS (F.state flash.new).words
        ≡ words_of F.PAGES F.SLOTS (F.state flash.old).words)
        ⊎ (words_of F.PAGES F.SLOTS (F.state flash.new).words
        ≡ written (words_of F.PAGES F.SLOTS (F.state flash.old).words) (16 * page + first) words.now) }
    ensures done { OnOk result (words_of F.PAGES F.SLOTS (F.state flash.new).words
        ≡ written (words_of F.PAGES F.SLOTS (F.state flash.old).words) (16 * page + first) words.now) }
    ensures log { IsSectorLog F.Table.entries F.PAGES F.SLOTS F.SECTORS F.sector_start (F.state flash.new).words
        place.new }
    ensures ready { OnOk result (place.new.ready ≡ true) }
    // At every exit the slot is passed over.
    ensures gives_up { place.new.tried ≡ place.old.next + 1 }
    ensures next { place.new.ready ≡ true → (place.new.next ≡ place.old.next + 1) × (place.new.turn ≡ place.old.turn)
        × (place_steps F.PAGES F.SECTORS place.new ≡ place_steps F.PAGES F.SECTORS place.old)
        × ((place.new.older ≡ 0) ⊎ (place.new.older ≡ page + 1)) }
    // If it fails, and the pages are not known again, many more calls failed.
    ensures unread { IsErrOf result DeviceErr.Fault → place.new.ready ≡ false
        → (F.state flash.old).faults + TRIES ≤ (F.state flash.new).faults }
    // The record is in the last slot that isn't free.
    ensures last { OnOk result (find (F.state flash.new).words
        (base_in F.SLOTS (turn_of F.SLOTS (F.state flash.new).words)) F.SLOTS page
        ≡ F.SLOTS - free_slots F.SLOTS place.new) }
    ensures light { Tries 1 (F.state flash.old) (F.state flash.new) result }
    ensures work { (F.state flash.new).operations ≤ (F.state flash.old).operations + 2 }
    ensures erases { (F.state flash.new).erases ≡ (F.state flash.old).erases }
{
    let older = older_page(page, place.copied);
    place.ready = false;
    place.tried = place.next + 1;
    let ended = write_run(
        flash,
        home(place.turn),
        &mut place.table,
        place.next,
        page,
        first,
        words,
    );
    match ended {
        Ok(()) => {}
        Err(DeviceErr::PowerLost) => return Err(DeviceErr::PowerLost),
        Err(DeviceErr::Fault) => {
            area_again(flash, &mut place.table)?;
            place.next += 1;
            place.older = older;
            place.ready = true;
            return Err(DeviceErr::Fault);
        }
    }
    place.next += 1;
    place.older = older;
    place.ready = true;
    Ok(())
}

/// Finds the pages, and takes a step of the move, if one is due. A step that fails leaves the move as it was: then a
/// record is put too, if a slot is free beside those of the steps, and no copy of another page may be older.
fn make_ready<F: SectorFlash>(
    flash: &mut F,
    place: &mut PageMap<F::Table>,
    page: u16,
) -> Result<(), DeviceErr>
    requires lit { (F.state flash.old).dark ≡ false }
    requires log { IsSectorLog F.Table.entries F.PAGES F.SLOTS F.SECTORS F.sector_start (F.state flash.old).words
        place.old }
    requires page { page < F.PAGES }
    ensures words { words_of F.PAGES F.SLOTS (F.state flash.new).words
        ≡ words_of F.PAGES F.SLOTS (F.state flash.old).words }
    ensures log { IsSectorLog F.Table.entries F.PAGES F.SLOTS F.SECTORS F.sector_start (F.state flash.new).words
        place.new }
    ensures takes { OnOk result (StaysInStep F.PAGES F.SLOTS F.SECTORS page place.new) }
    // The slots for the record and its tries.
    ensures beside { OnOk result (place.old.ready ≡ true → HasBeside F.PAGES F.SLOTS F.SECTORS
        (F.state flash.old).faults (F.state flash.new).faults place.old place.new) }
    ensures stays { OnErr result (place.old.ready ≡ true → place.new.ready ≡ true → StaysAtStep place.old place.new) }
    // In a move too it fails only behind eight Faults; or behind more than slots were free beside those of the steps,
    // where the steps need all that are left; or if a step failed that has yet to copy another page again. Such a step
    // ends behind fewer Faults than its sector has slots over, up to seven, only where nothing but its erase was begun.
    ensures keeps_trying { (k : ℕ) → 0 < free_slots F.SLOTS place.old
        → known_sector_steps F.PAGES F.SECTORS place.old + k ≤ free_slots F.SLOTS place.old
        → IsErrOf result DeviceErr.Fault
        → GivesUpBehind F.PAGES F.SLOTS F.SECTORS F.sector_start page k
        (sector_log_value F.PAGES F.SLOTS F.SECTORS (F.state flash.old) place.old)
        (sector_log_value F.PAGES F.SLOTS F.SECTORS (F.state flash.new) place.new) }
    ensures idle { sector_lead F.SECTORS < free_slots F.SLOTS place.old
        → (place.new ≡ place.old) × (F.state flash.new ≡ F.state flash.old) }
    // If the flash doesn't fail, the next slot stays, or a move has ended.
    ensures next { OnOk result ((F.state flash.new).faults ≡ (F.state flash.old).faults
        → place.old.ready ≡ true → (place.new.next ≡ place.old.next) ⊎ (place.new.next
        ≡ spare_slot_of F.SLOTS F.SECTORS F.sector_start place.old.turn (steps_of F.PAGES))) }
    ensures light { Tries 1 (F.state flash.old) (F.state flash.new) result }
    ensures work { Costs 36 2 (F.state flash.old) (F.state flash.new) }
    ensures most { (F.state flash.new).operations ≤ (F.state flash.old).operations + 48 }
    ensures erases { (F.state flash.new).erases ≤ (F.state flash.old).erases + 1 }
{
    look(flash, place)?;
    match take_step(flash, place) {
        Ok(()) => return Ok(()),
        Err(DeviceErr::PowerLost) => return Err(DeviceErr::PowerLost),
        Err(DeviceErr::Fault) => {}
    }
    if !may_put(place, page) {
        return Err(DeviceErr::Fault);
    }
    if !has_slot::<F>(place) {
        return Err(DeviceErr::Fault);
    }
    Ok(())
}

/// Returns true if no copy but that of a page may be older.
fn may_put<T: PageTable>(place: &PageMap<T>, page: u16) -> bool
    requires { page < 65535 }
    ensures yes { result ≡ true → (place.now.older ≡ 0) ⊎ (place.now.older ≡ page + 1) }
    ensures no { result ≡ false → (place.now.older ≢ 0) × (place.now.older ≢ page + 1) }
{
    place.older == 0 || place.older == page + 1
}

/// Writes a run of a page. At every exit all words of the run are old, or all are new. If a step of a move is due it is
/// tried once, so at most one sector is erased. The tries behind a record that failed pass over its slot, as long as a
/// slot is free beside those of the steps.
pub fn write_at<F: SectorFlash>(
    flash: &mut F,
    place: &mut PageMap<F::Table>,
    page: u16,
    first: u8,
    words: &[u32],
) -> Result<(), DeviceErr>
    requires lit { (F.state flash.old).dark ≡ false }
    requires log { IsSectorLog F.Table.entries F.PAGES F.SLOTS F.SECTORS F.sector_start (F.state flash.old).words
        place.old }
    requires page { page < F.PAGES }
    requires run { first + length words.now ≤ 16 }
    ensures whole { (words_of F.PAGES F.SLOTS (F.state flash.new).words
        ≡ words_of F.PAGES F.SLOTS (F.state flash.old).words)
        ⊎ (words_of F.PAGES F.SLOTS (F.state flash.new).words
        ≡ written (words_of F.PAGES F.SLOTS (F.state flash.old).words) (16 * page + first) words.now) }
    ensures done { OnOk result (words_of F.PAGES F.SLOTS (F.state flash.new).words
        ≡ written (words_of F.PAGES F.SLOTS (F.state flash.old).words) (16 * page + first) words.now) }
    ensures log { IsSectorLog F.Table.entries F.PAGES F.SLOTS F.SECTORS F.sector_start (F.state flash.new).words
        place.new }
    // With more free slots than a move begins at, no step is due: a record is programmed, and its mark.
    ensures calm { sector_lead F.SECTORS < free_slots F.SLOTS place.old
        → (F.state flash.new).faults ≡ (F.state flash.old).faults
        → ((F.state flash.new).operations ≤ (F.state flash.old).operations + 2)
        × ((F.state flash.new).erases ≡ (F.state flash.old).erases) }
    ensures slot { OnOk result (sector_lead F.SECTORS < free_slots F.SLOTS place.old
        → (F.state flash.new).faults ≡ (F.state flash.old).faults
        → free_slots F.SLOTS place.new + 1 ≡ free_slots F.SLOTS place.old) }
    // The record is in the last slot that isn't free.
    ensures last { OnOk result (find (F.state flash.new).words
        (base_in F.SLOTS (turn_of F.SLOTS (F.state flash.new).words)) F.SLOTS page
        ≡ F.SLOTS - free_slots F.SLOTS place.new) }
    // Behind Ok only the copy of its page may be older, else also the one that might be before.
    ensures older { OnOk result ((known_older place.new ≡ 0) ⊎ (known_older place.new ≡ page + 1)) }
    ensures stays_older { place.old.ready ≡ true → place.new.ready ≡ true → (place.new.older ≡ 0)
        ⊎ ((place.new.older ≡ page + 1) ⊎ (place.new.older ≡ place.old.older)) }
    // A write behind which more slots are free than before has ended a move.
    ensures regains { OnOk result ((F.state flash.new).faults ≡ (F.state flash.old).faults
        → 0 < free_slots F.SLOTS place.old → free_slots F.SLOTS place.old < free_slots F.SLOTS place.new
        → free_slots F.SLOTS place.new + 1 + spare_slot_of F.SLOTS F.SECTORS F.sector_start
        (turn_of F.SLOTS (F.state flash.old).words) (steps_of F.PAGES) ≡ F.SLOTS) }
    ensures light { Tries 1 (F.state flash.old) (F.state flash.new) result }
    // While no step is due, it fails only if as many tries did, and each passed over its slot.
    ensures tries { sector_lead F.SECTORS < free_slots F.SLOTS place.old
        → Tries TRIES (F.state flash.old) (F.state flash.new) result }
    ensures gives_up { IsErrOf result DeviceErr.Fault → sector_lead F.SECTORS < free_slots F.SLOTS place.old
        → free_slots F.SLOTS place.new + TRIES ≤ free_slots F.SLOTS place.old }
    // In a move too it fails only behind eight Faults; or behind more than slots were free beside those of the steps,
    // where the steps need all that are left; or if a step failed that has yet to copy another page again. Such a step
    // ends behind fewer Faults than its sector has slots over, up to seven, only where nothing but its erase was begun.
    ensures keeps_trying { (k : ℕ) → 0 < free_slots F.SLOTS place.old
        → known_sector_steps F.PAGES F.SECTORS place.old + k ≤ free_slots F.SLOTS place.old
        → IsErrOf result DeviceErr.Fault
        → GivesUpBehind F.PAGES F.SLOTS F.SECTORS F.sector_start page k
        (sector_log_value F.PAGES F.SLOTS F.SECTORS (F.state flash.old) place.old)
        (sector_log_value F.PAGES F.SLOTS F.SECTORS (F.state flash.new) place.new) }
    // Behind it, no fewer slots are free beside those of the steps than before, or than eight, but for one for each
    // Fault.
    ensures beside { 0 < free_slots F.SLOTS place.old → 0 < free_slots F.SLOTS place.new → KeepsBeside
        (sector_log_value F.PAGES F.SLOTS F.SECTORS (F.state flash.old) place.old)
        (sector_log_value F.PAGES F.SLOTS F.SECTORS (F.state flash.new) place.new) }
    ensures work { Costs 38 2 (F.state flash.old) (F.state flash.new) }
    // However often the flash fails and power was lost before.
    ensures most { (F.state flash.new).operations ≤ (F.state flash.old).operations + 64 }
    ensures erases { (F.state flash.new).erases ≤ (F.state flash.old).erases + 1 }
{
    make_ready(flash, place, page)?;
    for _ in 1..TRIES {
        match write_once(flash, place, page, first, words) {
            Ok(()) => return Ok(()),
            Err(DeviceErr::PowerLost) => return Err(DeviceErr::PowerLost),
            Err(DeviceErr::Fault) => {}
        }
        if !has_slot::<F>(place) {
            return Err(DeviceErr::Fault);
        }
    }
    write_once(flash, place, page, first, words)
}

//! A sector of the other area is erased, and filled with copies of pages.
ghost use Rattle.std.specs.Prelude.{◌≡◌, ◌≢◌, ◌⊎◌, ◌<◌, ◌≤◌, ◌+◌, ◌-◌, ◌*◌, ℕ, List, false, slice_index, IfOk};
ghost use Rattle.std.specs.Prelude.{IsErrOf, OnOk};
ghost use Rattle.nvm_board.specs.declared.board.DeviceErr.TheVariants as DeviceErr;
ghost use Rattle.flash_device.specs.FlashBlocks.{steps_of};
ghost use Rattle.flash_device.specs.FlashCalls.{Costs, SameElsewhere, Tries};
ghost use Rattle.flash_device.specs.FlashLogs.{base_in, find, page_word, slot_of, turn_of, words_of};
ghost use Rattle.flash_device.specs.PageTables.{IsPageTable, AreFree};
ghost use Rattle.flash_device.specs.PutRecords.{IsPut};
ghost use Rattle.flash_device.specs.declared.layout.TheConstants.{STEP_PAGES};
ghost use Rattle.flash_area.specs.PageCopies.{KeepsOthers};
ghost use Rattle.flash_area.specs.Spares.{spare_in, spare_sector};
ghost use Rattle.flash_moves.specs.Rings.{IsRing};
ghost use Rattle.flash_moves.specs.declared.ahead.TheConstants.{TRIES};
ghost use Rattle.sector_moves.specs.SectorSpares.{HasSectorCopies, HasStepCopies, HoldsSlots, PutsPage, SpendsSlots};
ghost use Rattle.sector_moves.specs.declared.filling.TheConstants.{STEP_SLOTS};

use crate::layout::{spare_slot, spare_slots};
use crate::sector_flash::SectorFlash;
use flash_area::{Record, first_sector_of_spare, home, program_record, record_of, spare};
use flash_device::{Flash, PageTable, STEP_PAGES, slot_at};
use flash_moves::TRIES;
use nvm_board::DeviceErr;

/// The most slots that a step takes in its sector, for the copies of up to 17 pages. The others are those that fail.
pub const STEP_SLOTS: u16 = 23;

/// Reads the record of a page as it is. A Fault of the flash is returned only if as many tries failed.
fn read_record<F: Flash>(
    flash: &mut F,
    area: u8,
    table: &F::Table,
    page: u16,
) -> Result<Record, DeviceErr>
    requires lit { (F.state flash.old).dark ≡ false }
    requires entry { slice_index (F.Table.entries table.now) page
        ≡ find (F.state flash.old).words (base_in F.SLOTS area) F.SLOTS page }
    requires page { page < F.PAGES }
    ensures each { IfOk result (λ r. (k : ℕ) → k < 16
        → slice_index r k ≡ page_word (F.state flash.old).words (base_in F.SLOTS area) F.SLOTS page k) }
    ensures names { IfOk result (λ r. slice_index r 16 ≡ page) }
    ensures unused { IfOk result (λ r. slice_index r 17 ≡ 0) }
    ensures words { (F.state flash.new).words ≡ (F.state flash.old).words }
    ensures work { (F.state flash.new).operations ≡ (F.state flash.old).operations }
    ensures erases { (F.state flash.new).erases ≡ (F.state flash.old).erases }
    ensures light { Tries TRIES (F.state flash.old) (F.state flash.new) result }
{
    for _ in 1..TRIES {
        match record_of(flash, area, table, page) {
            Err(DeviceErr::Fault) => {}
            ended => return ended,
        }
    }
    record_of(flash, area, table, page)
}

/// Puts a record into the first slot from `next` on that takes it, below `end`. A slot that fails is passed over.
fn put_in_sector<F: Flash>(
    flash: &mut F,
    area: u8,
    next: u16,
    end: u16,
    words: &Record,
) -> Result<u16, DeviceErr>
    requires lit { (F.state flash.old).dark ≡ false }
    requires some { (next < end) × (end ≤ F.SLOTS) }
    requires free { AreFree (F.state flash.old).words (base_in F.SLOTS area) next end }
    ensures elsewhere { SameElsewhere (F.state flash.old).words (slot_of (base_in F.SLOTS area) next)
        (20 * (end - next)) (F.state flash.new).words }
    ensures put { IfOk result (λ s. (next ≤ s) × (s < end)
        × IsPut (F.state flash.new).words (slot_of (base_in F.SLOTS area) s) words.now) }
    ensures others { IfOk result (λ s. (below : ℕ) → end ≤ below
        → AreFree (F.state flash.old).words (base_in F.SLOTS area) next below
        → KeepsOthers below (F.state flash.old).words (base_in F.SLOTS area) (slice_index words.now 16)
        (F.state flash.new).words (s + 1)) }
    // A Fault is returned only if each of the slots failed.
    ensures light { Tries (end - next) (F.state flash.old) (F.state flash.new) result }
    ensures passes { IfOk result (λ s. s + (F.state flash.old).faults ≤ next + (F.state flash.new).faults) }
    ensures work { Costs 2 2 (F.state flash.old) (F.state flash.new) }
    ensures spends { IfOk result (λ s. SpendsSlots next (s + 1) (F.state flash.old) (F.state flash.new)) }
    ensures within { SpendsSlots next end (F.state flash.old) (F.state flash.new) }
    ensures erases { (F.state flash.new).erases ≡ (F.state flash.old).erases }
{
    for slot in next..end {
        match program_record(flash, slot_at::<F>(area, slot), words) {
            Ok(()) => return Ok(slot),
            Err(DeviceErr::PowerLost) => return Err(DeviceErr::PowerLost),
            Err(DeviceErr::Fault) => {}
        }
    }
    Err(DeviceErr::Fault)
}

/// Puts a page as it is into a free slot of the other area below `end`, and returns the first slot behind it.
fn put_page<F: Flash>(
    flash: &mut F,
    turn: u8,
    table: &F::Table,
    next: u16,
    end: u16,
    page: u16,
) -> Result<u16, DeviceErr>
    requires lit { (F.state flash.old).dark ≡ false }
    requires turn { turn < 3 }
    requires some { (next < end) × (end ≤ F.SLOTS) }
    requires free { AreFree (F.state flash.old).words (spare_in F.SLOTS turn) next end }
    requires entry { (page < F.PAGES) × (slice_index (F.Table.entries table.now) page
        ≡ find (F.state flash.old).words (base_in F.SLOTS turn) F.SLOTS page) }
    ensures elsewhere { SameElsewhere (F.state flash.old).words (slot_of (spare_in F.SLOTS turn) next)
        (20 * (end - next)) (F.state flash.new).words }
    ensures most { IfOk result (λ n. (next ≤ n) × (n ≤ end)) }
    ensures puts { IfOk result (λ n. (below : ℕ) → end ≤ below
        → AreFree (F.state flash.old).words (spare_in F.SLOTS turn) next below
        → PutsPage F.SLOTS (F.state flash.old).words (base_in F.SLOTS turn) (spare_in F.SLOTS turn) below page
        (F.state flash.new).words n) }
    ensures light { Tries 1 (F.state flash.old) (F.state flash.new) result }
    // Each slot that it passes over failed. It fails only if a read failed in each try, or a program in each slot.
    ensures passes { IfOk result (λ n. n + (F.state flash.old).faults ≤ next + 1 + (F.state flash.new).faults) }
    ensures keeps_trying { IsErrOf result DeviceErr.Fault
        → ((F.state flash.old).faults + TRIES ≤ (F.state flash.new).faults)
        ⊎ ((F.state flash.old).faults + (end - next) ≤ (F.state flash.new).faults) }
    ensures work { Costs 2 2 (F.state flash.old) (F.state flash.new) }
    ensures spends { IfOk result (λ n. SpendsSlots next n (F.state flash.old) (F.state flash.new)) }
    ensures within { SpendsSlots next end (F.state flash.old) (F.state flash.new) }
    ensures erases { (F.state flash.new).erases ≡ (F.state flash.old).erases }
{
    let found = read_record(flash, home(turn), table, page)?;
    let slot = put_in_sector(flash, spare(turn), next, end, &found)?;
    Ok(slot + 1)
}

/// Copies the page again whose copy may be older, if there is one, and returns the first free slot.
fn put_older<F: Flash>(
    flash: &mut F,
    turn: u8,
    table: &F::Table,
    next: u16,
    end: u16,
    older: u16,
) -> Result<u16, DeviceErr>
    requires lit { (F.state flash.old).dark ≡ false }
    requires turn { (turn < 3) × (turn ≢ 1) × (turn ≡ turn_of F.SLOTS (F.state flash.old).words) }
    requires some { (next < end) × (end ≤ F.SLOTS) }
    requires free { AreFree (F.state flash.old).words (spare_in F.SLOTS turn) next end }
    requires index { (older ≤ F.PAGES)
        × IsPageTable F.PAGES (F.state flash.old).words (base_in F.SLOTS turn) F.SLOTS (F.Table.entries table.now) }
    ensures elsewhere { SameElsewhere (F.state flash.old).words (slot_of (spare_in F.SLOTS turn) next)
        (20 * (end - next)) (F.state flash.new).words }
    ensures most { IfOk result (λ n. (next ≤ n) × (n ≤ end)) }
    ensures free { IfOk result (λ n. (below : ℕ) → end ≤ below
        → AreFree (F.state flash.old).words (spare_in F.SLOTS turn) next below
        → AreFree (F.state flash.new).words (spare_in F.SLOTS turn) n below) }
    ensures copies { IfOk result (λ n. (below copied : ℕ) (words : List ℕ) → end ≤ below → older ≤ copied
        → words ≡ words_of F.PAGES F.SLOTS (F.state flash.old).words
        → AreFree (F.state flash.old).words (spare_in F.SLOTS turn) next below
        → HasSectorCopies F.PAGES F.SLOTS (F.state flash.old).words words (base_in F.SLOTS turn)
        (spare_in F.SLOTS turn) below copied older
        → HasSectorCopies F.PAGES F.SLOTS (F.state flash.new).words words (base_in F.SLOTS turn)
        (spare_in F.SLOTS turn) below copied 0) }
    ensures light { Tries 1 (F.state flash.old) (F.state flash.new) result }
    // Each slot that it passes over failed. It fails only if a read failed in each try, or a program in each slot.
    ensures passes { IfOk result (λ n. n + (F.state flash.old).faults ≤ next + 1 + (F.state flash.new).faults) }
    ensures keeps_trying { IsErrOf result DeviceErr.Fault
        → ((F.state flash.old).faults + TRIES ≤ (F.state flash.new).faults)
        ⊎ ((F.state flash.old).faults + (end - next) ≤ (F.state flash.new).faults) }
    ensures work { Costs 2 2 (F.state flash.old) (F.state flash.new) }
    ensures spends { IfOk result (λ n. SpendsSlots next n (F.state flash.old) (F.state flash.new)) }
    ensures within { SpendsSlots next end (F.state flash.old) (F.state flash.new) }
    ensures erases { (F.state flash.new).erases ≡ (F.state flash.old).erases }
{
    if older == 0 {
        return Ok(next);
    }
    let free = put_page(flash, turn, table, next, end, older - 1)?;
    Ok(free)
}

/// Copies a page to a free slot of the other area below `end`, and returns the first free slot. A page that was never
/// written takes none.
fn copy_page<F: Flash>(
    flash: &mut F,
    turn: u8,
    table: &F::Table,
    next: u16,
    end: u16,
    page: u16,
) -> Result<u16, DeviceErr>
    requires lit { (F.state flash.old).dark ≡ false }
    requires turn { (turn < 3) × (turn ≢ 1) × (turn ≡ turn_of F.SLOTS (F.state flash.old).words) }
    requires some { (next < end) × (end ≤ F.SLOTS) }
    requires free { AreFree (F.state flash.old).words (spare_in F.SLOTS turn) next end }
    requires entry { (page < F.PAGES) × (slice_index (F.Table.entries table.now) page
        ≡ find (F.state flash.old).words (base_in F.SLOTS turn) F.SLOTS page) }
    ensures elsewhere { SameElsewhere (F.state flash.old).words (slot_of (spare_in F.SLOTS turn) next)
        (20 * (end - next)) (F.state flash.new).words }
    ensures most { IfOk result (λ n. (next ≤ n) × (n ≤ end)) }
    ensures free { IfOk result (λ n. (below : ℕ) → end ≤ below
        → AreFree (F.state flash.old).words (spare_in F.SLOTS turn) next below
        → AreFree (F.state flash.new).words (spare_in F.SLOTS turn) n below) }
    ensures copies { IfOk result (λ n. (below : ℕ) (words : List ℕ) → end ≤ below
        → words ≡ words_of F.PAGES F.SLOTS (F.state flash.old).words
        → AreFree (F.state flash.old).words (spare_in F.SLOTS turn) next below
        → HasSectorCopies F.PAGES F.SLOTS (F.state flash.old).words words (base_in F.SLOTS turn)
        (spare_in F.SLOTS turn) below page 0
        → HasSectorCopies F.PAGES F.SLOTS (F.state flash.new).words words (base_in F.SLOTS turn)
        (spare_in F.SLOTS turn) below (page + 1) 0) }
    ensures light { Tries 1 (F.state flash.old) (F.state flash.new) result }
    // Each slot that it passes over failed. It fails only if a read failed in each try, or a program in each slot.
    ensures passes { IfOk result (λ n. n + (F.state flash.old).faults ≤ next + 1 + (F.state flash.new).faults) }
    ensures keeps_trying { IsErrOf result DeviceErr.Fault
        → ((F.state flash.old).faults + TRIES ≤ (F.state flash.new).faults)
        ⊎ ((F.state flash.old).faults + (end - next) ≤ (F.state flash.new).faults) }
    ensures work { Costs 2 2 (F.state flash.old) (F.state flash.new) }
    ensures spends { IfOk result (λ n. SpendsSlots next n (F.state flash.old) (F.state flash.new)) }
    ensures within { SpendsSlots next end (F.state flash.old) (F.state flash.new) }
    ensures erases { (F.state flash.new).erases ≡ (F.state flash.old).erases }
{
    if table.entry(page) == 0 {
        return Ok(next);
    }
    let free = put_page(flash, turn, table, next, end, page)?;
    Ok(free)
}

/// Copies the pages of a step to free slots of the other area below `end`, and returns the first slot behind them.
fn copy_pages<F: Flash>(
    flash: &mut F,
    turn: u8,
    table: &F::Table,
    next: u16,
    end: u16,
    first: u16,
) -> Result<u16, DeviceErr>
    requires lit { (F.state flash.old).dark ≡ false }
    requires turn { (turn < 3) × (turn ≢ 1) × (turn ≡ turn_of F.SLOTS (F.state flash.old).words) }
    requires some { (next + STEP_PAGES ≤ end) × (end ≤ F.SLOTS) }
    requires free { AreFree (F.state flash.old).words (spare_in F.SLOTS turn) next end }
    requires index { (first + STEP_PAGES ≤ F.PAGES)
        × IsPageTable F.PAGES (F.state flash.old).words (base_in F.SLOTS turn) F.SLOTS (F.Table.entries table.now) }
    ensures elsewhere { SameElsewhere (F.state flash.old).words (slot_of (spare_in F.SLOTS turn) next)
        (20 * (end - next)) (F.state flash.new).words }
    ensures copies { OnOk result ((below : ℕ) (words : List ℕ) → end ≤ below
        → words ≡ words_of F.PAGES F.SLOTS (F.state flash.old).words
        → AreFree (F.state flash.old).words (spare_in F.SLOTS turn) next below
        → HasSectorCopies F.PAGES F.SLOTS (F.state flash.old).words words (base_in F.SLOTS turn)
        (spare_in F.SLOTS turn) below first 0
        → HasSectorCopies F.PAGES F.SLOTS (F.state flash.new).words words (base_in F.SLOTS turn)
        (spare_in F.SLOTS turn) below (first + STEP_PAGES) 0) }
    ensures most { IfOk result (λ n. (next ≤ n) × (n ≤ end)) }
    ensures light { Tries 1 (F.state flash.old) (F.state flash.new) result }
    // Each slot that it passes over failed. It fails only if a read failed in each try, or a program in each slot that
    // the other pages leave over.
    ensures passes { IfOk result (λ n. n + (F.state flash.old).faults
        ≤ next + STEP_PAGES + (F.state flash.new).faults) }
    ensures keeps_trying { IsErrOf result DeviceErr.Fault
        → ((F.state flash.old).faults + TRIES ≤ (F.state flash.new).faults)
        ⊎ ((F.state flash.old).faults + (end - next) + 1 ≤ (F.state flash.new).faults + STEP_PAGES) }
    ensures work { Costs 32 2 (F.state flash.old) (F.state flash.new) }
    ensures spends { IfOk result (λ n. SpendsSlots next n (F.state flash.old) (F.state flash.new)) }
    ensures within { SpendsSlots next end (F.state flash.old) (F.state flash.new) }
    ensures erases { (F.state flash.new).erases ≡ (F.state flash.old).erases }
{
    let mut free = next;
    for k in 0..STEP_PAGES {
        free = copy_page(
            flash,
            turn,
            table,
            free,
            end - STEP_PAGES + k + 1,
            first + k,
        )?;
    }
    Ok(free)
}

/// Takes a step that copies pages: erases its sector of the other area, copies the page there whose copy may be older,
/// and the pages of the step. Returns how many slots it took: those that fail are passed over. At every exit no other
/// word of the flash has changed, so it can be taken again.
pub fn fill_sector<F: SectorFlash>(
    flash: &mut F,
    turn: u8,
    table: &F::Table,
    step: u16,
    older: u16,
) -> Result<u16, DeviceErr>
    requires lit { (F.state flash.old).dark ≡ false }
    requires turn { (turn < 3) × (turn ≢ 1) × (turn ≡ turn_of F.SLOTS (F.state flash.old).words) }
    requires step { (step < steps_of F.PAGES) × (older ≤ STEP_PAGES * step) }
    requires index { IsPageTable F.PAGES (F.state flash.old).words (base_in F.SLOTS turn) F.SLOTS
        (F.Table.entries table.now) }
    requires ring { IsRing F.SLOTS (F.state flash.old).words }
    ensures elsewhere { SameElsewhere (F.state flash.old).words
        (F.sector_start (spare_sector F.SECTORS turn + step))
        (F.sector_start (spare_sector F.SECTORS turn + (step + 1))
        - F.sector_start (spare_sector F.SECTORS turn + step)) (F.state flash.new).words }
    ensures copies { OnOk result (HasStepCopies F.PAGES F.SLOTS F.SECTORS F.sector_start (F.state flash.old).words
        turn step older
        → HasStepCopies F.PAGES F.SLOTS F.SECTORS F.sector_start (F.state flash.new).words turn (step + 1) 0) }
    ensures taken { IfOk result (λ n. n ≤ STEP_SLOTS) }
    ensures light { Tries 1 (F.state flash.old) (F.state flash.new) result }
    // Each slot that it passes over failed.
    ensures passes { IfOk result (λ n. n + (F.state flash.old).faults
        ≤ STEP_PAGES + 1 + (F.state flash.new).faults) }
    // Behind fewer Faults than its sector has slots over, up to seven, it fails only where nothing but its erase was
    // begun.
    ensures keeps_trying { (t : ℕ) → t < TRIES → HoldsSlots F.PAGES F.SLOTS F.SECTORS F.sector_start t
        → IsErrOf result DeviceErr.Fault → ((F.state flash.old).faults + t ≤ (F.state flash.new).faults)
        ⊎ ((F.state flash.new).operations ≤ (F.state flash.old).operations + 1) }
    ensures work { Costs 35 2 (F.state flash.old) (F.state flash.new) }
    // However often the flash fails, it erases the sector, and programs two times for each of its slots.
    ensures spends { IfOk result (λ n. (F.state flash.new).operations ≤ (F.state flash.old).operations + 1 + 2 * n) }
    ensures most { (F.state flash.new).operations ≤ (F.state flash.old).operations + 1 + 2 * STEP_SLOTS }
    ensures erases { (F.state flash.new).erases ≤ (F.state flash.old).erases + 1 }
{
    flash.erase(first_sector_of_spare::<F>(turn) + step)?;
    let first = spare_slot::<F>(turn, step);
    let end = spare_slots::<F>(turn, step + 1).min(first + STEP_SLOTS);
    let next = put_older(flash, turn, table, first, end - STEP_PAGES, older)?;
    let behind = copy_pages(flash, turn, table, next, end, STEP_PAGES * step)?;
    Ok(behind - first)
}

//! How far a move has come, by what the flash holds.
ghost use Rattle.std.specs.Prelude.{◌≡◌, ◌≢◌, ◌<◌, ◌≤◌, ◌+◌, ◌-◌, ◌*◌, ℕ, true, false, slice_index, IfNone, IfOk};
ghost use Rattle.std.specs.Prelude.{IfSome};
ghost use Rattle.flash_device.specs.FlashBlocks.{steps_of};
ghost use Rattle.flash_device.specs.FlashCalls.{AreFilled, Lights};
ghost use Rattle.flash_device.specs.FlashLogs.{base_in, turn_of, word_of};
ghost use Rattle.flash_device.specs.PageTables.{IsPageTable};
ghost use Rattle.flash_device.specs.declared.flash.TheConstants.{BLANK};
ghost use Rattle.flash_device.specs.declared.layout.TheConstants.{STEP_PAGES};
ghost use Rattle.flash_area.specs.Spares.{spare_in};
ghost use Rattle.sector_moves.specs.SectorSpares.{HasFewestSteps, HasOlderCopy, HasStepCopies, IsSectorSpare};
ghost use Rattle.sector_moves.specs.SectorSpares.{ReadsAsCopy, last_sectors, last_start, sector_steps};
ghost use Rattle.sector_moves.specs.declared.progress.TheConstants.{NEAR_STEPS};

use crate::layout::spare_slots;
use crate::sector_flash::SectorFlash;
use flash_area::{first_sector_of_spare, home, read_page_word, scan_slot, spare};
use flash_device::{BLANK, Flash, PageTable, STEP_PAGES, copy_steps, slot_at};
use flash_moves::TRIES;
use nvm_board::DeviceErr;

/// The numbers of steps near the least one: so many more steps as a write has tries may have been taken, and one.
const NEAR_STEPS: u16 = TRIES as u16 + 2;

/// How far a move has come.
#[derive(Clone, Copy)]
pub struct StepsTaken {
    /// The last sectors of the other area that are erased.
    pub erased: u16,
    /// The steps that have copied pages to it.
    pub copied: u16,
    /// The page among those copied whose copy may be older, by its number and 1, or 0.
    pub older: u16,
}

/// Returns true if a sector is blank.
fn is_blank_sector<F: Flash>(flash: &mut F, sector: u16) -> Result<bool, DeviceErr>
    requires lit { (F.state flash.old).dark ≡ false }
    requires sector { sector ≤ 2 * F.SECTORS }
    ensures blank { IfOk result (λ b. b ≡ true → AreFilled (F.state flash.old).words (F.sector_start sector)
        (F.sector_start (sector + 1) - F.sector_start sector) BLANK) }
    ensures used { IfOk result (λ b. b ≡ false → ¬ AreFilled (F.state flash.old).words (F.sector_start sector)
        (F.sector_start (sector + 1) - F.sector_start sector) BLANK) }
    ensures words { (F.state flash.new).words ≡ (F.state flash.old).words }
    ensures work { (F.state flash.new).operations ≡ (F.state flash.old).operations }
    ensures erases { (F.state flash.new).erases ≡ (F.state flash.old).erases }
    ensures light { Lights (F.state flash.old) (F.state flash.new) result }
{
    for at in F::sector_at(sector)..F::sector_at(sector + 1) {
        if flash.read(at)? != BLANK {
            return Ok(false);
        }
    }
    Ok(true)
}

/// Returns how many of the last sectors of the other area are blank, from the first of them on.
fn blank_sectors<F: SectorFlash>(flash: &mut F, turn: u8) -> Result<u16, DeviceErr>
    requires lit { (F.state flash.old).dark ≡ false }
    ensures most { IfOk result (λ n. n ≤ last_sectors F.PAGES F.SECTORS) }
    ensures blank { IfOk result (λ n. AreFilled (F.state flash.old).words
        (last_start F.PAGES F.SECTORS F.sector_start turn 0)
        (last_start F.PAGES F.SECTORS F.sector_start turn n - last_start F.PAGES F.SECTORS F.sector_start turn 0)
        BLANK) }
    ensures all { IfOk result (λ n. (e : ℕ) → e ≤ last_sectors F.PAGES F.SECTORS
        → AreFilled (F.state flash.old).words (last_start F.PAGES F.SECTORS F.sector_start turn 0)
        (last_start F.PAGES F.SECTORS F.sector_start turn e - last_start F.PAGES F.SECTORS F.sector_start turn 0)
        BLANK → e ≤ n) }
    ensures words { (F.state flash.new).words ≡ (F.state flash.old).words }
    ensures work { (F.state flash.new).operations ≡ (F.state flash.old).operations }
    ensures erases { (F.state flash.new).erases ≡ (F.state flash.old).erases }
    ensures light { Lights (F.state flash.old) (F.state flash.new) result }
{
    let first = first_sector_of_spare::<F>(turn) + copy_steps::<F>();
    let last = F::SECTORS - copy_steps::<F>();
    for n in 0..last {
        if !is_blank_sector(flash, first + n)? {
            return Ok(n);
        }
    }
    Ok(last)
}

/// Finds the slot of each page by the first slots of an area.
fn scan_slots<F: Flash>(
    flash: &mut F,
    area: u8,
    below: u16,
    table: &mut F::Table,
) -> Result<(), DeviceErr>
    requires lit { (F.state flash.old).dark ≡ false }
    requires below { below ≤ F.SLOTS }
    ensures index { IfOk result (λ _. IsPageTable F.PAGES (F.state flash.old).words
        (base_in F.SLOTS area) below (F.Table.entries table.new)) }
    ensures words { (F.state flash.new).words ≡ (F.state flash.old).words }
    ensures work { (F.state flash.new).operations ≡ (F.state flash.old).operations }
    ensures erases { (F.state flash.new).erases ≡ (F.state flash.old).erases }
    ensures light { Lights (F.state flash.old) (F.state flash.new) result }
{
    *table = F::Table::blank();
    let mut next = 0;
    for slot in 0..below {
        next = scan_slot(flash, area, slot, next, table)?;
    }
    Ok(())
}

/// Returns a word of a slot, by the slot's number and 1. Number 0 has words of 0.
fn word_in<F: Flash>(flash: &mut F, area: u8, number: u16, place: u16) -> Result<u32, DeviceErr>
    requires lit { (F.state flash.old).dark ≡ false }
    requires number { number ≤ F.SLOTS }
    requires place { place < 16 }
    ensures word { IfOk result (λ w. w ≡ word_of (F.state flash.old).words (base_in F.SLOTS area) number place) }
    ensures words { (F.state flash.new).words ≡ (F.state flash.old).words }
    ensures work { (F.state flash.new).operations ≡ (F.state flash.old).operations }
    ensures erases { (F.state flash.new).erases ≡ (F.state flash.old).erases }
    ensures light { Lights (F.state flash.old) (F.state flash.new) result }
{
    if number == 0 {
        return Ok(0);
    }
    flash.read(slot_at::<F>(area, number - 1) + u32::from(place))
}

/// Returns true if a page reads the same in the first slots of the other area as in the area in use.
fn is_copy<F: Flash>(
    flash: &mut F,
    turn: u8,
    table: &F::Table,
    other: &F::Table,
    below: u16,
    page: u16,
) -> Result<bool, DeviceErr>
    requires lit { (F.state flash.old).dark ≡ false }
    requires turn { turn < 3 }
    requires page { (page < F.PAGES) × (below ≤ F.SLOTS) }
    requires home { IsPageTable F.PAGES (F.state flash.old).words (base_in F.SLOTS turn) F.SLOTS
        (F.Table.entries table.now) }
    requires spare { IsPageTable F.PAGES (F.state flash.old).words (spare_in F.SLOTS turn) below
        (F.Table.entries other.now) }
    ensures same { IfOk result (λ b. b ≡ true → ReadsAsCopy F.SLOTS (F.state flash.old).words
        (base_in F.SLOTS turn) (spare_in F.SLOTS turn) below page) }
    ensures differs { IfOk result (λ b. b ≡ false → ¬ ReadsAsCopy F.SLOTS (F.state flash.old).words
        (base_in F.SLOTS turn) (spare_in F.SLOTS turn) below page) }
    ensures words { (F.state flash.new).words ≡ (F.state flash.old).words }
    ensures work { (F.state flash.new).operations ≡ (F.state flash.old).operations }
    ensures erases { (F.state flash.new).erases ≡ (F.state flash.old).erases }
    ensures light { Lights (F.state flash.old) (F.state flash.new) result }
{
    for k in 0..16u16 {
        let word = read_page_word(flash, home(turn), table, page, k)?;
        let copy = word_in(flash, spare(turn), other.entry(page), k)?;
        if word != copy {
            return Ok(false);
        }
    }
    Ok(true)
}

/// Returns true if the second table has no page from one on that the first one lacks.
fn lacks_none<F: Flash>(table: &F::Table, other: &F::Table, first: u16) -> bool
    ensures yes { result ≡ true → (p : ℕ) → first ≤ p → p < F.PAGES
        → slice_index (F.Table.entries table.now) p ≡ 0 → slice_index (F.Table.entries other.now) p ≡ 0 }
    ensures no { result ≡ false → ¬ ((p : ℕ) → first ≤ p → p < F.PAGES
        → slice_index (F.Table.entries table.now) p ≡ 0 → slice_index (F.Table.entries other.now) p ≡ 0) }
{
    for page in first..F::PAGES {
        if table.entry(page) == 0 && other.entry(page) != 0 {
            return false;
        }
    }
    true
}

/// Returns the one page among the first so many that doesn't read the same in the first slots of the other area, by
/// its number and 1, or 0 if there is none. If there are more, it returns nothing.
fn older_copy<F: Flash>(
    flash: &mut F,
    turn: u8,
    table: &F::Table,
    other: &F::Table,
    below: u16,
    pages: u16,
) -> Result<Option<u16>, DeviceErr>
    requires lit { (F.state flash.old).dark ≡ false }
    requires turn { turn < 3 }
    requires pages { (pages ≤ F.PAGES) × (below ≤ F.SLOTS) }
    requires home { IsPageTable F.PAGES (F.state flash.old).words (base_in F.SLOTS turn) F.SLOTS
        (F.Table.entries table.now) }
    requires spare { IsPageTable F.PAGES (F.state flash.old).words (spare_in F.SLOTS turn) below
        (F.Table.entries other.now) }
    ensures most { IfOk result (λ o. IfSome o (λ older. older ≤ pages)) }
    ensures one { IfOk result (λ o. IfSome o (λ older. (p : ℕ) → p < pages → p + 1 ≢ older
        → ReadsAsCopy F.SLOTS (F.state flash.old).words (base_in F.SLOTS turn) (spare_in F.SLOTS turn) below p)) }
    ensures differs { IfOk result (λ o. IfSome o (λ older. older ≢ 0
        → ¬ ReadsAsCopy F.SLOTS (F.state flash.old).words (base_in F.SLOTS turn) (spare_in F.SLOTS turn) below
        (older - 1))) }
    ensures more { IfOk result (λ o. IfNone o ((older : ℕ) → ¬ ((p : ℕ) → p < pages → p + 1 ≢ older
        → ReadsAsCopy F.SLOTS (F.state flash.old).words (base_in F.SLOTS turn) (spare_in F.SLOTS turn) below p))) }
    ensures words { (F.state flash.new).words ≡ (F.state flash.old).words }
    ensures work { (F.state flash.new).operations ≡ (F.state flash.old).operations }
    ensures erases { (F.state flash.new).erases ≡ (F.state flash.old).erases }
    ensures light { Lights (F.state flash.old) (F.state flash.new) result }
{
    let mut older = 0;
    for k in 0..pages {
        // From the last one on: pages that no step has copied are there.
        let page = pages - 1 - k;
        if !is_copy(flash, turn, table, other, below, page)? {
            if older != 0 {
                return Ok(None);
            }
            older = page + 1;
        }
    }
    Ok(Some(older))
}

/// Returns the page whose copy may be older, as a number, if so many steps have copied pages.
fn copies_of<F: SectorFlash>(
    flash: &mut F,
    turn: u8,
    table: &F::Table,
    steps: u16,
) -> Result<Option<u16>, DeviceErr>
    requires lit { (F.state flash.old).dark ≡ false }
    requires turn { (turn < 3) × (turn ≡ turn_of F.SLOTS (F.state flash.old).words) }
    requires steps { steps < steps_of F.PAGES }
    requires home { IsPageTable F.PAGES (F.state flash.old).words (base_in F.SLOTS turn) F.SLOTS
        (F.Table.entries table.now) }
    ensures most { IfOk result (λ o. IfSome o (λ older. older ≤ STEP_PAGES * steps)) }
    ensures copies { IfOk result (λ o. IfSome o (λ older. HasStepCopies F.PAGES F.SLOTS F.SECTORS F.sector_start
        (F.state flash.old).words turn steps older)) }
    ensures older { IfOk result (λ o. IfSome o (λ older. HasOlderCopy F.SLOTS F.SECTORS F.sector_start
        (F.state flash.old).words turn steps older)) }
    ensures none { IfOk result (λ o. IfNone o ((older : ℕ) → ¬ HasStepCopies F.PAGES F.SLOTS F.SECTORS F.sector_start
        (F.state flash.old).words turn steps older)) }
    ensures words { (F.state flash.new).words ≡ (F.state flash.old).words }
    ensures work { (F.state flash.new).operations ≡ (F.state flash.old).operations }
    ensures erases { (F.state flash.new).erases ≡ (F.state flash.old).erases }
    ensures light { Lights (F.state flash.old) (F.state flash.new) result }
{
    let below = spare_slots::<F>(turn, steps);
    let mut other = F::Table::blank();
    scan_slots(flash, spare(turn), below, &mut other)?;
    if !lacks_none::<F>(table, &other, STEP_PAGES * steps) {
        return Ok(None);
    }
    let older = older_copy(flash, turn, table, &other, below, STEP_PAGES * steps)?;
    Ok(older)
}

/// Returns how far the move has come, by the last number of steps near the least one that the flash shows, or nothing
/// if it shows none.
fn near_copies<F: SectorFlash>(
    flash: &mut F,
    turn: u8,
    table: &F::Table,
    least: u16,
) -> Result<Option<StepsTaken>, DeviceErr>
    requires lit { (F.state flash.old).dark ≡ false }
    requires turn { (turn < 3) × (turn ≢ 1) × (turn ≡ turn_of F.SLOTS (F.state flash.old).words) }
    requires home { IsPageTable F.PAGES (F.state flash.old).words (base_in F.SLOTS turn) F.SLOTS
        (F.Table.entries table.now) }
    ensures erased { IfOk result (λ o. IfSome o (λ r. r.erased ≡ last_sectors F.PAGES F.SECTORS)) }
    ensures most { IfOk result (λ o. IfSome o (λ r. (r.copied < steps_of F.PAGES)
        × (r.older ≤ STEP_PAGES * r.copied))) }
    ensures copies { IfOk result (λ o. IfSome o (λ r. HasStepCopies F.PAGES F.SLOTS F.SECTORS F.sector_start
        (F.state flash.old).words turn r.copied r.older)) }
    ensures older { IfOk result (λ o. IfSome o (λ r. HasOlderCopy F.SLOTS F.SECTORS F.sector_start
        (F.state flash.old).words turn r.copied r.older)) }
    ensures near { IfOk result (λ o. IfSome o (λ r. (least ≤ r.copied) × (r.copied < least + NEAR_STEPS))) }
    ensures last { IfOk result (λ o. IfSome o (λ r. (c older : ℕ) → r.copied < c → c < least + NEAR_STEPS
        → c < steps_of F.PAGES → ¬ HasStepCopies F.PAGES F.SLOTS F.SECTORS F.sector_start
        (F.state flash.old).words turn c older)) }
    ensures none { IfOk result (λ o. IfNone o ((c older : ℕ) → least ≤ c → c < least + NEAR_STEPS
        → c < steps_of F.PAGES → ¬ HasStepCopies F.PAGES F.SLOTS F.SECTORS F.sector_start
        (F.state flash.old).words turn c older)) }
    ensures words { (F.state flash.new).words ≡ (F.state flash.old).words }
    ensures work { (F.state flash.new).operations ≡ (F.state flash.old).operations }
    ensures erases { (F.state flash.new).erases ≡ (F.state flash.old).erases }
    ensures light { Lights (F.state flash.old) (F.state flash.new) result }
{
    let steps = copy_steps::<F>();
    let end = steps.min(least.saturating_add(NEAR_STEPS));
    for k in 0..end.saturating_sub(least) {
        let copied = end - 1 - k;
        if let Some(older) = copies_of(flash, turn, table, copied)? {
            return Ok(Some(StepsTaken {
                erased: F::SECTORS - steps,
                copied,
                older,
            }));
        }
    }
    Ok(None)
}

/// Returns how far the move has come, by the first number of steps from one on that the flash shows, or nothing if it
/// shows none.
fn first_copies<F: SectorFlash>(
    flash: &mut F,
    turn: u8,
    table: &F::Table,
    from: u16,
) -> Result<Option<StepsTaken>, DeviceErr>
    requires lit { (F.state flash.old).dark ≡ false }
    requires turn { (turn < 3) × (turn ≢ 1) × (turn ≡ turn_of F.SLOTS (F.state flash.old).words) }
    requires home { IsPageTable F.PAGES (F.state flash.old).words (base_in F.SLOTS turn) F.SLOTS
        (F.Table.entries table.now) }
    ensures erased { IfOk result (λ o. IfSome o (λ r. r.erased ≡ last_sectors F.PAGES F.SECTORS)) }
    ensures most { IfOk result (λ o. IfSome o (λ r. (r.copied < steps_of F.PAGES)
        × (r.older ≤ STEP_PAGES * r.copied))) }
    ensures copies { IfOk result (λ o. IfSome o (λ r. HasStepCopies F.PAGES F.SLOTS F.SECTORS F.sector_start
        (F.state flash.old).words turn r.copied r.older)) }
    ensures older { IfOk result (λ o. IfSome o (λ r. HasOlderCopy F.SLOTS F.SECTORS F.sector_start
        (F.state flash.old).words turn r.copied r.older)) }
    ensures from { IfOk result (λ o. IfSome o (λ r. from ≤ r.copied)) }
    ensures first { IfOk result (λ o. IfSome o (λ r. (c older : ℕ) → from ≤ c → c < r.copied
        → ¬ HasStepCopies F.PAGES F.SLOTS F.SECTORS F.sector_start (F.state flash.old).words turn c older)) }
    ensures none { IfOk result (λ o. IfNone o ((c older : ℕ) → from ≤ c → c < steps_of F.PAGES
        → ¬ HasStepCopies F.PAGES F.SLOTS F.SECTORS F.sector_start (F.state flash.old).words turn c older)) }
    ensures words { (F.state flash.new).words ≡ (F.state flash.old).words }
    ensures work { (F.state flash.new).operations ≡ (F.state flash.old).operations }
    ensures erases { (F.state flash.new).erases ≡ (F.state flash.old).erases }
    ensures light { Lights (F.state flash.old) (F.state flash.new) result }
{
    let steps = copy_steps::<F>();
    for copied in from..steps {
        if let Some(older) = copies_of(flash, turn, table, copied)? {
            return Ok(Some(StepsTaken {
                erased: F::SECTORS - steps,
                copied,
                older,
            }));
        }
    }
    Ok(None)
}

/// Finds steps that have copied pages, where all last sectors of the other area are erased: the last number near the
/// least one that the flash shows, since more steps leave more slots to the tries of a write, or else the first number
/// above. If it shows none, no step has.
fn find_copies<F: SectorFlash>(
    flash: &mut F,
    turn: u8,
    table: &F::Table,
    least: u16,
) -> Result<StepsTaken, DeviceErr>
    requires lit { (F.state flash.old).dark ≡ false }
    requires turn { (turn < 3) × (turn ≢ 1) × (turn ≡ turn_of F.SLOTS (F.state flash.old).words) }
    requires home { IsPageTable F.PAGES (F.state flash.old).words (base_in F.SLOTS turn) F.SLOTS
        (F.Table.entries table.now) }
    ensures erased { IfOk result (λ r. r.erased ≡ last_sectors F.PAGES F.SECTORS) }
    ensures most { IfOk result (λ r. (r.copied < steps_of F.PAGES) × (r.older ≤ STEP_PAGES * r.copied)) }
    ensures copies { IfOk result (λ r. HasStepCopies F.PAGES F.SLOTS F.SECTORS F.sector_start
        (F.state flash.old).words turn r.copied r.older) }
    ensures older { IfOk result (λ r. HasOlderCopy F.SLOTS F.SECTORS F.sector_start (F.state flash.old).words turn
        r.copied r.older) }
    ensures enough { IfOk result (λ r. (c o : ℕ) → c < steps_of F.PAGES → least ≤ c → HasStepCopies F.PAGES F.SLOTS
        F.SECTORS F.sector_start (F.state flash.old).words turn c o → least ≤ r.copied) }
    ensures near { IfOk result (λ r. (c o : ℕ) → c < steps_of F.PAGES → least ≤ c → c < least + NEAR_STEPS
        → HasStepCopies F.PAGES F.SLOTS F.SECTORS F.sector_start (F.state flash.old).words turn c o
        → c ≤ r.copied) }
    ensures words { (F.state flash.new).words ≡ (F.state flash.old).words }
    ensures work { (F.state flash.new).operations ≡ (F.state flash.old).operations }
    ensures erases { (F.state flash.new).erases ≡ (F.state flash.old).erases }
    ensures light { Lights (F.state flash.old) (F.state flash.new) result }
{
    if let Some(near) = near_copies(flash, turn, table, least)? {
        return Ok(near);
    }
    if let Some(above) = first_copies(flash, turn, table, least.saturating_add(NEAR_STEPS))? {
        return Ok(above);
    }
    Ok(StepsTaken {
        erased: F::SECTORS - copy_steps::<F>(),
        copied: 0,
        older: 0,
    })
}

/// Finds how far the move has come, by reading, where the slots from `next` on are free. In turn 1 it has not begun.
/// It looks for as many steps as leave no more than there are free slots: a move in step has so many, and hardly more.
pub fn find_steps<F: SectorFlash>(
    flash: &mut F,
    turn: u8,
    table: &F::Table,
    next: u16,
) -> Result<StepsTaken, DeviceErr>
    requires lit { (F.state flash.old).dark ≡ false }
    requires turn { (turn < 3) × (turn ≡ turn_of F.SLOTS (F.state flash.old).words) }
    requires home { IsPageTable F.PAGES (F.state flash.old).words (base_in F.SLOTS turn) F.SLOTS
        (F.Table.entries table.now) }
    requires next { next ≤ F.SLOTS }
    ensures spare { IfOk result (λ r. IsSectorSpare F.PAGES F.SLOTS F.SECTORS F.sector_start
        (F.state flash.old).words turn r.erased r.copied r.older) }
    ensures older { IfOk result (λ r. HasOlderCopy F.SLOTS F.SECTORS F.sector_start (F.state flash.old).words turn
        r.copied r.older) }
    // If any progress that the flash shows leaves no more steps than there are free slots, what is found does.
    ensures room { IfOk result (λ r. (e c o : ℕ) → IsSectorSpare F.PAGES F.SLOTS F.SECTORS F.sector_start
        (F.state flash.old).words turn e c o → sector_steps F.PAGES F.SECTORS turn e c + next ≤ F.SLOTS
        → sector_steps F.PAGES F.SECTORS turn r.erased r.copied + next ≤ F.SLOTS) }
    ensures fewest { IfOk result (λ r. HasFewestSteps F.PAGES F.SLOTS F.SECTORS F.sector_start
        (F.state flash.old).words turn (F.SLOTS - next) (sector_steps F.PAGES F.SECTORS turn r.erased r.copied)) }
    ensures words { (F.state flash.new).words ≡ (F.state flash.old).words }
    ensures work { (F.state flash.new).operations ≡ (F.state flash.old).operations }
    ensures erases { (F.state flash.new).erases ≡ (F.state flash.old).erases }
    ensures light { Lights (F.state flash.old) (F.state flash.new) result }
{
    let none = StepsTaken {
        erased: 0,
        copied: 0,
        older: 0,
    };
    if turn == 1 {
        return Ok(none);
    }
    let steps = copy_steps::<F>();
    let erased = blank_sectors(flash, turn)?;
    if erased < F::SECTORS - steps {
        return Ok(StepsTaken { erased, ..none });
    }
    let found = find_copies(flash, turn, table, steps.saturating_sub(F::SLOTS - next))?;
    Ok(found)
}

//! How far a move has come. The log finds it by reading the flash, so nothing of it is lost at power-off.
ghost use Rattle.std.specs.Prelude.{◌≡◌, ◌≢◌, ◌⊎◌, ◌<◌, ◌≤◌, ◌+◌, ◌-◌, ◌*◌, ◌/◌, ℕ, true, false};
ghost use Rattle.std.specs.Prelude.{IfOk, IfSome, IfNone};
ghost use Rattle.flash_device.specs.FlashBlocks.{flash_size, steps_of};
ghost use Rattle.flash_device.specs.FlashCalls.{Lights};
ghost use Rattle.flash_device.specs.FlashLogs.{base_in, turn_of, words_of};
ghost use Rattle.flash_device.specs.PageTables.{IsPageTable};
ghost use Rattle.flash_device.specs.declared.layout.TheConstants.{STEP_PAGES};
ghost use Rattle.flash_area.specs.ProgressParts.{HasNoCopies, IsBestCopies, IsBlankCount, IsCopyCount, IsFirstUsed};
ghost use Rattle.flash_area.specs.ProgressParts.{IsPagesEnd, IsSameCount, ReadsSame};
ghost use Rattle.flash_area.specs.Spares.{FindsFurthest, IsSpare, KeepsSectors, KeepsSteps};
ghost use Rattle.flash_area.specs.Spares.{copies_most, spare_in, spare_sector};

use crate::image::read_page_word;
use crate::record::is_closed;
use crate::scanning::scan;
use crate::two_areas::{first_sector_of_spare, home, spare};
use flash_device::{BLANK, Flash, PageTable, STEP_PAGES, copy_steps};
use nvm_board::DeviceErr;

/// How far a move has come.
#[derive(Clone, Copy)]
pub struct Progress {
    /// The sectors of the other area that are erased.
    pub erased: u16,
    /// The steps that have copied pages to it.
    pub copied: u16,
    /// The first slot of it that is free, with all that follow it.
    pub behind: u16,
    /// The page among those copied whose copy may be older, by its number and 1, or 0.
    pub older: u16,
}

/// The steps that have copied pages.
#[derive(Clone, Copy)]
struct Copies {
    copied: u16,
    older: u16,
}

/// Returns the address of the first word of a run that is not blank, or its end.
fn first_used<F: Flash>(flash: &mut F, from: u32, end: u32) -> Result<u32, DeviceErr>
    requires lit { (F.state flash.old).dark ≡ false }
    requires order { from ≤ end }
    requires within { end ≤ flash_size F.SLOTS }
    ensures first { IfOk result (λ at. IsFirstUsed (F.state flash.old).words from end at) }
    ensures words { (F.state flash.new).words ≡ (F.state flash.old).words }
    ensures work { (F.state flash.new).operations ≡ (F.state flash.old).operations }
    ensures erases { (F.state flash.new).erases ≡ (F.state flash.old).erases }
    ensures light { Lights (F.state flash.old) (F.state flash.new) result }
{
    for at in from..end {
        if flash.read(at)? != BLANK {
            return Ok(at);
        }
    }
    Ok(end)
}

/// Returns the number of sectors from `first` on, at most those of an area, that end at an address or before it.
fn sectors_before<F: Flash>(first: u16, end: u32) -> u16
    requires first { first ≤ F.SECTORS }
    requires from { F.sector_start first ≤ end }
    ensures most { result ≤ F.SECTORS }
    ensures within { F.sector_start (first + result) ≤ end }
    ensures all { (n : ℕ) → n ≤ F.SECTORS → F.sector_start (first + n) ≤ end → n ≤ result }
{
    for n in 0..F::SECTORS {
        if F::sector_at(first + n + 1) > end {
            return n;
        }
    }
    F::SECTORS
}

/// Returns the number of leading sectors of the other area that are blank.
fn blank_sectors<F: Flash>(flash: &mut F, turn: u8) -> Result<u16, DeviceErr>
    requires lit { (F.state flash.old).dark ≡ false }
    ensures blank { IfOk result (λ n. IsBlankCount F.SECTORS F.sector_start (F.state flash.old).words
        (spare_sector F.SECTORS turn) n) }
    ensures words { (F.state flash.new).words ≡ (F.state flash.old).words }
    ensures work { (F.state flash.new).operations ≡ (F.state flash.old).operations }
    ensures erases { (F.state flash.new).erases ≡ (F.state flash.old).erases }
    ensures light { Lights (F.state flash.old) (F.state flash.new) result }
{
    let first = first_sector_of_spare::<F>(turn);
    let used = first_used(flash, F::sector_at(first), F::sector_at(first + F::SECTORS))?;
    Ok(sectors_before::<F>(first, used))
}

/// Returns true if a page reads the same in both areas.
fn is_same_page<F: Flash>(
    flash: &mut F,
    turn: u8,
    table: &F::Table,
    other: &F::Table,
    page: u16,
) -> Result<bool, DeviceErr>
    requires lit { (F.state flash.old).dark ≡ false }
    requires turn { turn < 3 }
    requires page { page < F.PAGES }
    requires home { IsPageTable F.PAGES (F.state flash.old).words (base_in F.SLOTS turn) F.SLOTS
        (F.Table.entries table.now) }
    requires spare { IsPageTable F.PAGES (F.state flash.old).words (spare_in F.SLOTS turn) F.SLOTS
        (F.Table.entries other.now) }
    ensures same { IfOk result (λ b. b ≡ true → ReadsSame F.SLOTS (F.state flash.old).words
        (base_in F.SLOTS turn) (spare_in F.SLOTS turn) page) }
    ensures differs { IfOk result (λ b. b ≡ false → ¬ ReadsSame F.SLOTS (F.state flash.old).words
        (base_in F.SLOTS turn) (spare_in F.SLOTS turn) page) }
    ensures words { (F.state flash.new).words ≡ (F.state flash.old).words }
    ensures work { (F.state flash.new).operations ≡ (F.state flash.old).operations }
    ensures erases { (F.state flash.new).erases ≡ (F.state flash.old).erases }
    ensures light { Lights (F.state flash.old) (F.state flash.new) result }
{
    for k in 0..16u16 {
        let word = read_page_word(flash, home(turn), table, page, k)?;
        let copy = read_page_word(flash, spare(turn), other, page, k)?;
        if word != copy {
            return Ok(false);
        }
    }
    Ok(true)
}

/// Returns the first page from one on that doesn't read the same in both areas, or their number.
fn same_pages<F: Flash>(
    flash: &mut F,
    turn: u8,
    table: &F::Table,
    other: &F::Table,
    first: u16,
) -> Result<u16, DeviceErr>
    requires lit { (F.state flash.old).dark ≡ false }
    requires turn { turn < 3 }
    requires first { first ≤ F.PAGES }
    requires home { IsPageTable F.PAGES (F.state flash.old).words (base_in F.SLOTS turn) F.SLOTS
        (F.Table.entries table.now) }
    requires spare { IsPageTable F.PAGES (F.state flash.old).words (spare_in F.SLOTS turn) F.SLOTS
        (F.Table.entries other.now) }
    ensures count { IfOk result (λ n. IsSameCount F.PAGES F.SLOTS (F.state flash.old).words
        (base_in F.SLOTS turn) (spare_in F.SLOTS turn) first n) }
    ensures words { (F.state flash.new).words ≡ (F.state flash.old).words }
    ensures work { (F.state flash.new).operations ≡ (F.state flash.old).operations }
    ensures erases { (F.state flash.new).erases ≡ (F.state flash.old).erases }
    ensures light { Lights (F.state flash.old) (F.state flash.new) result }
{
    for page in first..F::PAGES {
        if !is_same_page(flash, turn, table, other, page)? {
            return Ok(page);
        }
    }
    Ok(F::PAGES)
}

/// Returns the number behind that of the last page that only the second table has.
fn pages_end<F: Flash>(table: &F::Table, other: &F::Table) -> u16
    ensures { IsPagesEnd F.PAGES (F.Table.entries table.now) (F.Table.entries other.now) result }
{
    let mut end = 0;
    for page in 0..F::PAGES {
        if table.entry(page) == 0 && other.entry(page) != 0 {
            end = page + 1;
        }
    }
    end
}

/// Returns the number of steps that copied so many pages. The last step of a move passes the turn too.
fn steps_of_pages<F: Flash>(pages: u16) -> u16
    ensures most { result < steps_of F.PAGES }
    ensures within { STEP_PAGES * result ≤ pages }
    ensures all { (n : ℕ) → n < steps_of F.PAGES → STEP_PAGES * n ≤ pages → n ≤ result }
{
    let copied = pages / STEP_PAGES;
    let last = copy_steps::<F>() - 1;
    if copied < last { copied } else { last }
}

/// Returns the number of a page and 1, if so many steps have copied it, else 0.
pub fn older_page(page: u16, copied: u16) -> u16
    requires page { page < 65535 }
    requires copied { copied ≤ 256 }
    ensures one { page < STEP_PAGES * copied → result ≡ page + 1 }
    ensures none { STEP_PAGES * copied ≤ page → result ≡ 0 }
{
    if page < STEP_PAGES * copied {
        return page + 1;
    }
    0
}

/// Counts the steps that have copied pages, by what reads the same in both areas. One copy may be older.
fn count_copies<F: Flash>(
    flash: &mut F,
    turn: u8,
    table: &F::Table,
    other: &F::Table,
) -> Result<Copies, DeviceErr>
    requires lit { (F.state flash.old).dark ≡ false }
    requires turn { turn < 3 }
    requires home { IsPageTable F.PAGES (F.state flash.old).words (base_in F.SLOTS turn) F.SLOTS
        (F.Table.entries table.now) }
    requires spare { IsPageTable F.PAGES (F.state flash.old).words (spare_in F.SLOTS turn) F.SLOTS
        (F.Table.entries other.now) }
    ensures count { IfOk result (λ r. IsCopyCount F.PAGES F.SLOTS (F.state flash.old).words
        (base_in F.SLOTS turn) (spare_in F.SLOTS turn) r.copied r.older) }
    ensures words { (F.state flash.new).words ≡ (F.state flash.old).words }
    ensures work { (F.state flash.new).operations ≡ (F.state flash.old).operations }
    ensures erases { (F.state flash.new).erases ≡ (F.state flash.old).erases }
    ensures light { Lights (F.state flash.old) (F.state flash.new) result }
{
    let first = same_pages(flash, turn, table, other, 0)?;
    if first == F::PAGES {
        let copied = steps_of_pages::<F>(first);
        return Ok(Copies { copied, older: 0 });
    }
    let next = same_pages(flash, turn, table, other, first + 1)?;
    let copied = steps_of_pages::<F>(next);
    let older = older_page(first, copied);
    Ok(Copies { copied, older })
}

/// Returns the slots that the copies of so many steps take at most, if no step lost power.
fn most_slots(copied: u16) -> u16
    requires { copied ≤ 256 }
    ensures { result ≡ copies_most copied 0 }
{
    if copied == 0 {
        return 0;
    }
    (STEP_PAGES + 1) * copied - 1
}

/// Returns true if an area is open and has no page that the area in use lacks, in as few slots as in pace.
fn is_in_pace<F: Flash>(closed: bool, copies: Copies, end: u16, behind: u16, extra: u16) -> bool
    requires { copies.copied < steps_of F.PAGES }
    ensures yes { result ≡ true → (closed ≡ false) × (end ≤ STEP_PAGES * copies.copied)
        × (behind ≤ copies_most copies.copied extra) }
    ensures no { result ≡ false → (closed ≡ true) ⊎ ((STEP_PAGES * copies.copied < end)
        ⊎ (copies_most copies.copied extra < behind)) }
{
    let most = u32::from(most_slots(copies.copied)) + u32::from(extra);
    !closed && end <= STEP_PAGES * copies.copied && u32::from(behind) <= most
}

/// Finds the copies in the other area, if no later page is there, and they take as few slots as in pace.
fn find_copies<F: Flash>(
    flash: &mut F,
    turn: u8,
    table: &F::Table,
    extra: u16,
) -> Result<Option<Progress>, DeviceErr>
    requires lit { (F.state flash.old).dark ≡ false }
    requires turn { (turn < 3) × (turn ≢ 1) × (turn ≡ turn_of F.SLOTS (F.state flash.old).words) }
    requires index { IsPageTable F.PAGES (F.state flash.old).words (base_in F.SLOTS turn) F.SLOTS
        (F.Table.entries table.now) }
    ensures found { IfOk result (λ o. IfSome o (λ r. (r.erased ≡ F.SECTORS) × IsBestCopies F.PAGES F.SLOTS F.SECTORS
        F.sector_start (F.state flash.old).words turn extra r.copied r.behind r.older)) }
    ensures none { IfOk result (λ o. IfNone o (HasNoCopies F.PAGES F.SLOTS F.SECTORS F.sector_start
        (F.state flash.old).words turn extra)) }
    ensures words { (F.state flash.new).words ≡ (F.state flash.old).words }
    ensures work { (F.state flash.new).operations ≡ (F.state flash.old).operations }
    ensures erases { (F.state flash.new).erases ≡ (F.state flash.old).erases }
    ensures light { Lights (F.state flash.old) (F.state flash.new) result }
{
    let mut other = F::Table::blank();
    let behind = scan(flash, spare(turn), &mut other)?;
    let copies = count_copies(flash, turn, table, &other)?;
    let closed = is_closed(flash, spare(turn))?;
    let end = pages_end::<F>(table, &other);
    if is_in_pace::<F>(closed, copies, end, behind, extra) {
        return Ok(Some(Progress {
            erased: F::SECTORS,
            copied: copies.copied,
            behind,
            older: copies.older,
        }));
    }
    Ok(None)
}

/// Returns true if the area in use has a free slot for each step of a move that has erased so many sectors.
fn fits<F: Flash>(erased: u16, next: u16) -> bool
    requires { next ≤ F.SLOTS }
    ensures yes { result ≡ true → (F.SECTORS - erased) + steps_of F.PAGES + next ≤ F.SLOTS }
    ensures no { result ≡ false → F.SLOTS < (F.SECTORS - erased) + steps_of F.PAGES + next }
{
    let steps = u32::from(F::SECTORS.saturating_sub(erased)) + u32::from(copy_steps::<F>());
    steps + u32::from(next) <= u32::from(F::SLOTS)
}

/// Returns true if steps that lost power cost slots, and the move can begin anew behind so many sectors.
fn begins_anew<F: Flash>(found: Progress, erased: u16, next: u16) -> bool
    requires copied { found.copied ≤ 256 }
    requires next { next ≤ F.SLOTS }
    ensures yes { result ≡ true → (copies_most found.copied 0 < found.behind)
        × ((F.SECTORS - erased) + steps_of F.PAGES + next ≤ F.SLOTS) }
    ensures no { result ≡ false → (found.behind ≤ copies_most found.copied 0)
        ⊎ (F.SLOTS < (F.SECTORS - erased) + steps_of F.PAGES + next) }
{
    found.behind > most_slots(found.copied) && fits::<F>(erased, next)
}

/// Finds how far the move has come, by reading, where the slots from `next` on are free. In turn 1 it has not begun.
/// The copies in the other area count if they are in at most so many `extra` slots more than without a power loss; then
/// that area is erased. If a power loss cost some, they count only if the move can't begin anew behind the leading
/// sectors of that area that are blank. Else the result has these sectors.
pub fn find_progress<F: Flash>(
    flash: &mut F,
    turn: u8,
    table: &F::Table,
    next: u16,
    extra: u16,
) -> Result<Progress, DeviceErr>
    requires lit { (F.state flash.old).dark ≡ false }
    requires turn { (turn < 3) × (turn ≡ turn_of F.SLOTS (F.state flash.old).words) }
    requires index { IsPageTable F.PAGES (F.state flash.old).words (base_in F.SLOTS turn) F.SLOTS
        (F.Table.entries table.now) }
    requires next { next ≤ F.SLOTS }
    ensures spare { IfOk result (λ r. IsSpare F.PAGES F.SLOTS F.SECTORS F.sector_start (F.state flash.old).words
        (words_of F.PAGES F.SLOTS (F.state flash.old).words) turn r.erased r.copied r.behind r.older) }
    ensures few { IfOk result (λ r. r.behind ≤ copies_most r.copied extra) }
    ensures keeps { IfOk result (λ r. KeepsSteps F.PAGES F.SLOTS F.SECTORS F.sector_start (F.state flash.old).words
        turn next extra r.erased r.copied r.behind) }
    // It leaves no more steps than a move that goes on, or begins anew.
    ensures furthest { IfOk result (λ r. FindsFurthest F.PAGES F.SLOTS F.SECTORS F.sector_start
        (F.state flash.old).words turn next extra r.erased r.copied r.older) }
    // Also out of pace no sector that reads blank is erased again.
    ensures blank { IfOk result (λ r. KeepsSectors F.PAGES F.SLOTS F.SECTORS F.sector_start
        (F.state flash.old).words turn r.erased) }
    ensures words { (F.state flash.new).words ≡ (F.state flash.old).words }
    ensures work { (F.state flash.new).operations ≡ (F.state flash.old).operations }
    ensures erases { (F.state flash.new).erases ≡ (F.state flash.old).erases }
    ensures light { Lights (F.state flash.old) (F.state flash.new) result }
{
    let none = Progress {
        erased: 0,
        copied: 0,
        behind: 0,
        older: 0,
    };
    if turn == 1 {
        return Ok(none);
    }
    let erased = blank_sectors(flash, turn)?;
    match find_copies(flash, turn, table, extra)? {
        Some(found) => {
            if begins_anew::<F>(found, erased, next) {
                return Ok(Progress { erased, ..none });
            }
            Ok(found)
        }
        None => Ok(Progress { erased, ..none }),
    }
}

//! The steps of a read and a write of the log.
ghost use Rattle.std.specs.Prelude.{◌≡◌, ◌⊎◌, ◌<◌, ◌≤◌, ◌+◌, ◌-◌, ◌*◌, ℕ, true, false, slice_index};
ghost use Rattle.std.specs.Prelude.{IfOk, OnErr, OnOk};
ghost use Rattle.flash_device.specs.FlashCalls.{Costs, Lights, Tries};
ghost use Rattle.flash_device.specs.FlashLogs.{base_in, turn_of, words_of};
ghost use Rattle.flash_device.specs.PageTables.{AreFree, IsPageTable};
ghost use Rattle.flash_moves.specs.Paces.{CopiesNoPageAt, HasStepped, HasMoved, HasNoStepDue, IsInPace, IsRoomy};
ghost use Rattle.flash_moves.specs.Paces.{EndsStep, KeepsFree, KeepsPace, MovesFound, MovesWell, Pauses};
ghost use Rattle.flash_moves.specs.Paces.{IsBeforeMove, IsCaughtUp, WillKeepPace, extra_of, free_slots};
ghost use Rattle.flash_moves.specs.Paces.{KeepsRoom, StandsSo, StaysInArea, failed_since, is_fresh, lead_of};
ghost use Rattle.flash_moves.specs.Paces.{lost_since, steps_left};
ghost use Rattle.flash_moves.specs.Places.{FindsFree, IsLog, log_value};
ghost use Rattle.flash_log.specs.SlotsInTurn.{BeginsBy, FindsNext, IsNextSlot, SameNext, WillTake};
ghost use Rattle.flash_area.specs.HeldPages.{HavePages};
ghost use Rattle.flash_area.specs.Spares.{FindsFurthest, IsSpare, KeepsSectors, KeepsSteps, copies_most};
ghost use Rattle.flash_log.specs.Renewals.{HasLastMark};

use flash_area::{Progress, find_progress, home, read_page_word, scan};
use flash_device::{Flash, copy_steps};
use flash_moves::{
    PageMap, copy_older, find_turn, lead, move_to_a, move_to_b, pass_witness, take_step,
};
use nvm_board::DeviceErr;

/// Passes over the slots that were tried.
fn later<F: Flash>(next: u16, tried: u16) -> u16
    requires { next ≤ F.SLOTS }
    ensures least { next ≤ result }
    ensures passed { (tried ≤ result) ⊎ (result ≡ F.SLOTS) }
    ensures most { result ≤ F.SLOTS }
    ensures none { tried ≤ next → result ≡ next }
    ensures is { tried ≤ F.SLOTS → next ≤ tried → result ≡ tried }
{
    next.max(tried.min(F::SLOTS))
}

/// The number of slots that steps of a move may take which lose power: those that are left of an area behind all pages,
/// one for each step, and the lead of the next move.
fn extra<F: Flash>() -> u16
    ensures { result ≡ extra_of F.PAGES F.SLOTS F.SECTORS }
{
    F::SLOTS.saturating_sub(F::PAGES + copy_steps::<F>() + lead::<F>())
}

/// Finds how far the move has come. While it isn't due, that is not looked for: it has not begun.
fn progress_at<F: Flash>(
    flash: &mut F,
    turn: u8,
    table: &F::Table,
    next: u16,
) -> Result<Progress, DeviceErr>
    requires lit { (F.state flash.old).dark ≡ false }
    requires turn { (turn < 3) × (turn ≡ turn_of F.SLOTS (F.state flash.old).words) }
    requires index { IsPageTable F.PAGES (F.state flash.old).words (base_in F.SLOTS turn) F.SLOTS
        (F.Table.entries table.now) }
    requires next { next ≤ F.SLOTS }
    ensures spare { IfOk result (λ r. IsSpare F.PAGES F.SLOTS F.SECTORS F.sector_start (F.state flash.old).words
        (words_of F.PAGES F.SLOTS (F.state flash.old).words) turn r.erased r.copied r.behind r.older) }
    ensures few { IfOk result (λ r. r.behind ≤ copies_most r.copied (extra_of F.PAGES F.SLOTS F.SECTORS)) }
    ensures idle { IfOk result (λ r. next + lead_of F.PAGES F.SECTORS < F.SLOTS → (r.copied ≡ 0) × (r.behind ≡ 0)) }
    ensures keeps { IfOk result (λ r. KeepsSteps F.PAGES F.SLOTS F.SECTORS F.sector_start (F.state flash.old).words
        turn next (extra_of F.PAGES F.SLOTS F.SECTORS) r.erased r.copied r.behind) }
    ensures furthest { IfOk result (λ r. F.SLOTS ≤ next + lead_of F.PAGES F.SECTORS → FindsFurthest F.PAGES F.SLOTS
        F.SECTORS F.sector_start (F.state flash.old).words turn next (extra_of F.PAGES F.SLOTS F.SECTORS) r.erased
        r.copied r.older) }
    ensures blank { IfOk result (λ r. F.SLOTS ≤ next + lead_of F.PAGES F.SECTORS → KeepsSectors F.PAGES F.SLOTS
        F.SECTORS F.sector_start (F.state flash.old).words turn r.erased) }
    ensures words { (F.state flash.new).words ≡ (F.state flash.old).words }
    ensures work { (F.state flash.new).operations ≡ (F.state flash.old).operations }
    ensures erases { (F.state flash.new).erases ≡ (F.state flash.old).erases }
    ensures light { Lights (F.state flash.old) (F.state flash.new) result }
{
    if F::SLOTS - next > lead::<F>() {
        return Ok(Progress {
            erased: 0,
            copied: 0,
            behind: 0,
            older: 0,
        });
    }
    let progress = find_progress(flash, turn, table, next, extra::<F>())?;
    Ok(progress)
}

/// Finds the pages and how far the move has come, if they are not known.
pub fn find_pages<F: Flash>(flash: &mut F, place: &mut PageMap<F::Table>) -> Result<(), DeviceErr>
    requires lit { (F.state flash.old).dark ≡ false }
    requires log { IsLog F.Table.entries F.PAGES F.SLOTS F.SECTORS F.sector_start (F.state flash.old).words place.old }
    ensures words { (F.state flash.new).words ≡ (F.state flash.old).words }
    ensures work { (F.state flash.new).operations ≡ (F.state flash.old).operations }
    ensures erases { (F.state flash.new).erases ≡ (F.state flash.old).erases }
    ensures log { IsLog F.Table.entries F.PAGES F.SLOTS F.SECTORS F.sector_start (F.state flash.new).words place.new }
    ensures ready { OnOk result (place.new.ready ≡ true) }
    ensures unready { OnErr result (place.new.ready ≡ false) }
    ensures known { place.old.ready ≡ true → place.new ≡ place.old }
    ensures found { OnOk result (place.old.ready ≡ false → place.old.tried ≡ 0
        → FindsFree F.SLOTS (F.state flash.old).words (free_slots F.SLOTS place.new)) }
    ensures tried { place.new.tried ≡ place.old.tried }
    ensures next { OnOk result (place.old.ready ≡ false → (n : ℕ) → n < F.SLOTS
        → IsNextSlot F.SLOTS (F.state flash.old).words place.old.tried n → place.new.next ≡ n) }
    ensures is_next { OnOk result (place.old.ready ≡ false → place.old.tried ≤ F.SLOTS
        → IsNextSlot F.SLOTS (F.state flash.old).words place.old.tried place.new.next) }
    ensures looks { is_fresh place.old ≡ true → (is_fresh place.new ≡ true)
        ⊎ FindsFree F.SLOTS (F.state flash.old).words (free_slots F.SLOTS place.new) }
    ensures begun { OnOk result (place.old.ready ≡ false → 0 < place.new.copied + place.new.behind
        → F.SLOTS ≤ place.new.next + lead_of F.PAGES F.SECTORS) }
    ensures furthest { OnOk result (place.old.ready ≡ false → F.SLOTS ≤ place.new.next + lead_of F.PAGES F.SECTORS
        → FindsFurthest F.PAGES F.SLOTS F.SECTORS F.sector_start (F.state flash.old).words place.new.turn place.new.next
        (extra_of F.PAGES F.SLOTS F.SECTORS) place.new.erased place.new.copied place.new.older) }
    ensures paced { (extra : ℕ) → place.old.ready ≡ false → lead_of F.PAGES F.SECTORS < free_slots F.SLOTS place.new
        → KeepsPace F.PAGES F.SLOTS F.SECTORS extra place.new }
    ensures in_pace { OnOk result ((extra : ℕ) → extra ≤ extra_of F.PAGES F.SLOTS F.SECTORS
        → WillKeepPace F.PAGES F.SLOTS F.SECTORS F.sector_start (F.state flash.old).words extra place.old
        → KeepsPace F.PAGES F.SLOTS F.SECTORS extra place.new) }
    ensures stands { (extra : ℕ) → extra ≤ extra_of F.PAGES F.SLOTS F.SECTORS
        → WillKeepPace F.PAGES F.SLOTS F.SECTORS F.sector_start (F.state flash.old).words extra place.old
        → WillKeepPace F.PAGES F.SLOTS F.SECTORS F.sector_start (F.state flash.new).words extra place.new }
    // No slot is passed over, and none is taken back.
    ensures same_next { SameNext F.SLOTS (log_value F.PAGES F.SLOTS F.SECTORS (F.state flash.old) place.old)
        (log_value F.PAGES F.SLOTS F.SECTORS (F.state flash.new) place.new) }
    ensures light { Lights (F.state flash.old) (F.state flash.new) result }
{
    if place.ready {
        return Ok(());
    }
    let turn = find_turn(flash)?;
    let first = scan(flash, home(turn), &mut place.table)?;
    let next = later::<F>(first, place.tried);
    let progress = progress_at(flash, turn, &place.table, next)?;
    place.turn = turn;
    place.next = next;
    place.erased = progress.erased;
    place.copied = progress.copied;
    place.behind = progress.behind;
    place.older = progress.older;
    place.ready = true;
    Ok(())
}

/// Finds the pages, and copies the page again whose copy may be older.
fn catch_up<F: Flash>(flash: &mut F, place: &mut PageMap<F::Table>) -> Result<(), DeviceErr>
    requires lit { (F.state flash.old).dark ≡ false }
    requires log { IsLog F.Table.entries F.PAGES F.SLOTS F.SECTORS F.sector_start (F.state flash.old).words place.old }
    ensures words { words_of F.PAGES F.SLOTS (F.state flash.new).words
        ≡ words_of F.PAGES F.SLOTS (F.state flash.old).words }
    ensures log { IsLog F.Table.entries F.PAGES F.SLOTS F.SECTORS F.sector_start (F.state flash.new).words place.new }
    ensures ready { OnOk result (place.new.ready ≡ true) }
    ensures unready { OnErr result (place.new.ready ≡ false) }
    ensures older { OnOk result (place.new.older ≡ 0) }
    ensures next { place.old.ready ≡ true → place.new.next ≡ place.old.next }
    ensures found { OnOk result (place.old.ready ≡ false → place.old.tried ≡ 0
        → FindsFree F.SLOTS (F.state flash.old).words (free_slots F.SLOTS place.new)) }
    ensures free { OnOk result (AreFree (F.state flash.old).words
        (base_in F.SLOTS (turn_of F.SLOTS (F.state flash.old).words)) place.new.next F.SLOTS) }
    ensures stands { (extra : ℕ)
        → IsRoomy F.PAGES F.SLOTS F.SECTORS (extra + failed_since (F.state flash.old) (F.state flash.new))
        → WillKeepPace F.PAGES F.SLOTS F.SECTORS F.sector_start (F.state flash.old).words extra place.old
        → StandsSo F.PAGES F.SLOTS F.SECTORS F.sector_start (F.state flash.new).words
        (extra + lost_since (F.state flash.old) (F.state flash.new)) place.new
        (IsCaughtUp F.PAGES F.SLOTS F.SECTORS (extra + lost_since (F.state flash.old) (F.state flash.new)) place.new) }
    ensures lost { (extra : ℕ) → IsRoomy F.PAGES F.SLOTS F.SECTORS extra
        → WillKeepPace F.PAGES F.SLOTS F.SECTORS F.sector_start (F.state flash.old).words extra place.old
        → IsBeforeMove F.PAGES F.SLOTS F.SECTORS (free_slots F.SLOTS place.old) (is_fresh place.old)
        (F.state flash.old).words
        → IsInPace F.PAGES F.SLOTS F.SECTORS F.sector_start (F.state flash.new).words extra }
    ensures idle { place.old.ready ≡ true → place.old.copied ≡ 0
        → (F.state flash.new).operations ≡ (F.state flash.old).operations }
    ensures turns { (n : ℕ) → n + lead_of F.PAGES F.SECTORS < F.SLOTS
        → WillTake F.SLOTS (log_value F.PAGES F.SLOTS F.SECTORS (F.state flash.old) place.old) n
        → FindsNext F.SLOTS n (log_value F.PAGES F.SLOTS F.SECTORS (F.state flash.old) place.old)
        (log_value F.PAGES F.SLOTS F.SECTORS (F.state flash.new) place.new) }
    ensures steps { OnOk result ((extra : ℕ) → IsRoomy F.PAGES F.SLOTS F.SECTORS extra
        → KeepsPace F.PAGES F.SLOTS F.SECTORS extra place.old
        → steps_left F.PAGES F.SECTORS place.new ≡ steps_left F.PAGES F.SECTORS place.old) }
    ensures turn { turn_of F.SLOTS (F.state flash.new).words ≡ turn_of F.SLOTS (F.state flash.old).words }
    ensures begins { (extra n : ℕ)
        → IsRoomy F.PAGES F.SLOTS F.SECTORS (extra + failed_since (F.state flash.old) (F.state flash.new))
        → WillKeepPace F.PAGES F.SLOTS F.SECTORS F.sector_start (F.state flash.old).words extra place.old
        → BeginsBy F.SLOTS (log_value F.PAGES F.SLOTS F.SECTORS (F.state flash.old) place.old) n
        → BeginsBy F.SLOTS (log_value F.PAGES F.SLOTS F.SECTORS (F.state flash.new) place.new) n }
    ensures light { Tries 1 (F.state flash.old) (F.state flash.new) result }
    ensures work { Costs 2 2 (F.state flash.old) (F.state flash.new) }
    ensures erases { (F.state flash.new).erases ≡ (F.state flash.old).erases }
{
    find_pages(flash, place)?;
    copy_older(flash, place)
}

/// Makes room for a record.
pub fn make_room<F: Flash>(flash: &mut F, place: &mut PageMap<F::Table>) -> Result<(), DeviceErr>
    requires lit { (F.state flash.old).dark ≡ false }
    requires log { IsLog F.Table.entries F.PAGES F.SLOTS F.SECTORS F.sector_start (F.state flash.old).words place.old }
    requires ready { place.old.ready ≡ true }
    ensures words { words_of F.PAGES F.SLOTS (F.state flash.new).words
        ≡ words_of F.PAGES F.SLOTS (F.state flash.old).words }
    ensures log { IsLog F.Table.entries F.PAGES F.SLOTS F.SECTORS F.sector_start (F.state flash.new).words place.new }
    ensures ready { OnOk result (place.new.ready ≡ true) }
    ensures older { place.old.older ≡ 0 → place.new.older ≡ 0 }
    ensures unready { OnErr result (place.new.ready ≡ false) }
    ensures tried { F.SLOTS ≤ place.old.next → place.new.tried ≡ 0 }
    ensures room { OnOk result (place.new.next < F.SLOTS) }
    ensures same { place.old.next < F.SLOTS → (place.new ≡ place.old) × (F.state flash.new ≡ F.state flash.old) }
    ensures fresh { OnOk result (F.SLOTS ≤ place.old.next
        → (F.state flash.new).faults ≡ (F.state flash.old).faults
        → HasMoved place.new place.new.next × (place.new.next ≤ F.PAGES)) }
    ensures passes { OnOk result (F.SLOTS ≤ place.old.next
        → place.new.next + (F.state flash.old).faults ≤ F.PAGES + (F.state flash.new).faults) }
    ensures have { OnOk result (F.SLOTS ≤ place.old.next → (F.state flash.new).faults ≡ (F.state flash.old).faults
        → HavePages F.PAGES F.SLOTS (F.state flash.new).words (base_in F.SLOTS place.new.turn) place.new.next) }
    ensures last { OnOk result (F.SLOTS ≤ place.old.next
        → HasLastMark F.SLOTS (F.state flash.new).words place.new.turn) }
    ensures keeps_free { KeepsFree F.PAGES F.SLOTS (F.state flash.old) (F.state flash.new) }
    ensures keeps_room { KeepsRoom F.PAGES F.SLOTS (F.state flash.old).words (F.state flash.new).words }
    ensures light { Tries 1 (F.state flash.old) (F.state flash.new) result }
    ensures work { Costs (2 * F.PAGES + 3 + F.SECTORS) 2 (F.state flash.old) (F.state flash.new) }
    ensures erases { (F.state flash.new).erases ≤ (F.state flash.old).erases + F.SECTORS + 1 }
    ensures fewer { OnOk result (place.new.turn ≡ 1
        → (F.state flash.new).erases ≤ (F.state flash.old).erases + F.SECTORS) }
{
    if place.next < F::SLOTS {
        return Ok(());
    }
    place.ready = false;
    place.tried = 0;
    place.erased = 0;
    place.copied = 0;
    place.behind = 0;
    place.older = 0;
    if place.turn == 0 {
        let free_in_b = move_to_b(flash, &mut place.table)?;
        place.turn = 1;
        place.next = free_in_b;
        place.ready = true;
        return Ok(());
    }
    if place.turn == 1 {
        pass_witness(flash)?;
    }
    let free_in_a = move_to_a(flash, &mut place.table)?;
    place.turn = 0;
    place.next = free_in_a;
    place.ready = true;
    Ok(())
}

/// Makes ready for a write: finds the pages, copies an older one again, takes a step of the move, and makes room.
pub fn prepare<F: Flash>(flash: &mut F, place: &mut PageMap<F::Table>) -> Result<(), DeviceErr>
    requires lit { (F.state flash.old).dark ≡ false }
    requires log { IsLog F.Table.entries F.PAGES F.SLOTS F.SECTORS F.sector_start (F.state flash.old).words place.old }
    ensures words { words_of F.PAGES F.SLOTS (F.state flash.new).words
        ≡ words_of F.PAGES F.SLOTS (F.state flash.old).words }
    ensures log { IsLog F.Table.entries F.PAGES F.SLOTS F.SECTORS F.sector_start (F.state flash.new).words place.new }
    ensures ready { OnOk result (place.new.ready ≡ true) }
    ensures unready { OnErr result (place.new.ready ≡ false) }
    ensures older { OnOk result (place.new.older ≡ 0) }
    ensures room { OnOk result (place.new.next < F.SLOTS) }
    ensures light { Tries 1 (F.state flash.old) (F.state flash.new) result }
    ensures work { Costs (2 * F.PAGES + 38 + F.SECTORS) 2 (F.state flash.old) (F.state flash.new) }
    ensures pause { (extra : ℕ)
        → IsRoomy F.PAGES F.SLOTS F.SECTORS (extra + failed_since (F.state flash.old) (F.state flash.new))
        → Pauses 35 2 (F.state flash.old) (F.state flash.new)
        (WillKeepPace F.PAGES F.SLOTS F.SECTORS F.sector_start (F.state flash.old).words extra place.old)
        (HasStepped F.PAGES F.SLOTS F.SECTORS (extra + failed_since (F.state flash.old) (F.state flash.new)) place.new)
        result }
    ensures moves_well { OnOk result ((extra : ℕ) → IsRoomy F.PAGES F.SLOTS F.SECTORS extra
        → (F.state flash.new).faults ≡ (F.state flash.old).faults
        → KeepsPace F.PAGES F.SLOTS F.SECTORS extra place.old → MovesWell F.PAGES extra place.old place.new) }
    ensures moves_found { OnOk result ((extra : ℕ) → IsRoomy F.PAGES F.SLOTS F.SECTORS extra
        → (F.state flash.new).faults ≡ (F.state flash.old).faults
        → WillKeepPace F.PAGES F.SLOTS F.SECTORS F.sector_start (F.state flash.old).words extra place.old
        → (n : ℕ) → FindsFree F.SLOTS (F.state flash.old).words n → MovesFound F.PAGES F.SLOTS extra n place.new) }
    ensures idle { place.old.ready ≡ true → place.old.next + lead_of F.PAGES F.SECTORS < F.SLOTS
        → HasNoStepDue (F.state flash.old) (F.state flash.new) place.old place.new }
    ensures turns { (n : ℕ) → n + lead_of F.PAGES F.SECTORS < F.SLOTS
        → WillTake F.SLOTS (log_value F.PAGES F.SLOTS F.SECTORS (F.state flash.old) place.old) n
        → FindsNext F.SLOTS n (log_value F.PAGES F.SLOTS F.SECTORS (F.state flash.old) place.old)
        (log_value F.PAGES F.SLOTS F.SECTORS (F.state flash.new) place.new) }
    ensures steps { OnOk result ((extra : ℕ) → IsRoomy F.PAGES F.SLOTS F.SECTORS extra
        → (F.state flash.new).faults ≡ (F.state flash.old).faults
        → KeepsPace F.PAGES F.SLOTS F.SECTORS extra place.old → F.SLOTS ≤ place.old.next + lead_of F.PAGES F.SECTORS
        → StaysInArea F.SLOTS (F.state flash.old).words (F.state flash.new).words
        → steps_left F.PAGES F.SECTORS place.new + 1 ≤ steps_left F.PAGES F.SECTORS place.old) }
    // Behind Ok a step is taken in pace, if one was due, also where programs of it failed.
    ensures ends { OnOk result ((extra : ℕ)
        → IsRoomy F.PAGES F.SLOTS F.SECTORS (extra + failed_since (F.state flash.old) (F.state flash.new))
        → KeepsPace F.PAGES F.SLOTS F.SECTORS extra place.old
        → EndsStep F.PAGES F.SLOTS F.SECTORS place.old place.new) }
    ensures begins { (extra n : ℕ)
        → IsRoomy F.PAGES F.SLOTS F.SECTORS (extra + failed_since (F.state flash.old) (F.state flash.new))
        → WillKeepPace F.PAGES F.SLOTS F.SECTORS F.sector_start (F.state flash.old).words extra place.old
        → StaysInArea F.SLOTS (F.state flash.old).words (F.state flash.new).words
        → BeginsBy F.SLOTS (log_value F.PAGES F.SLOTS F.SECTORS (F.state flash.old) place.old) n
        → BeginsBy F.SLOTS (log_value F.PAGES F.SLOTS F.SECTORS (F.state flash.new) place.new) n }
    ensures lost { (extra : ℕ) → IsRoomy F.PAGES F.SLOTS F.SECTORS extra
        → (F.state flash.new).faults ≡ (F.state flash.old).faults
        → WillKeepPace F.PAGES F.SLOTS F.SECTORS F.sector_start (F.state flash.old).words extra place.old
        → CopiesNoPageAt F.PAGES F.SLOTS F.SECTORS (F.state flash.old) place.old (F.state flash.new)
        → IsInPace F.PAGES F.SLOTS F.SECTORS F.sector_start (F.state flash.new).words extra }
    ensures stands { (extra : ℕ)
        → IsRoomy F.PAGES F.SLOTS F.SECTORS (extra + failed_since (F.state flash.old) (F.state flash.new))
        → WillKeepPace F.PAGES F.SLOTS F.SECTORS F.sector_start (F.state flash.old).words extra place.old
        → StandsSo F.PAGES F.SLOTS F.SECTORS F.sector_start (F.state flash.new).words
        (extra + lost_since (F.state flash.old) (F.state flash.new)) place.new
        (HasStepped F.PAGES F.SLOTS F.SECTORS (extra + lost_since (F.state flash.old) (F.state flash.new)) place.new) }
{
    catch_up(flash, place)?;
    take_step(flash, place)?;
    make_room(flash, place)?;
    Ok(())
}

/// Reads a word of the board.
pub fn read_at<F: Flash>(
    flash: &mut F,
    place: &mut PageMap<F::Table>,
    at: u16,
) -> Result<u32, DeviceErr>
    requires lit { (F.state flash.old).dark ≡ false }
    requires log { IsLog F.Table.entries F.PAGES F.SLOTS F.SECTORS F.sector_start (F.state flash.old).words place.old }
    requires at { at < 16 * F.PAGES }
    ensures word { IfOk result (λ w. w ≡ slice_index (words_of F.PAGES F.SLOTS (F.state flash.old).words) at) }
    ensures words { (F.state flash.new).words ≡ (F.state flash.old).words }
    ensures work { (F.state flash.new).operations ≡ (F.state flash.old).operations }
    ensures erases { (F.state flash.new).erases ≡ (F.state flash.old).erases }
    ensures log { IsLog F.Table.entries F.PAGES F.SLOTS F.SECTORS F.sector_start (F.state flash.new).words place.new }
    ensures ready { OnOk result (place.new.ready ≡ true) }
    ensures known { place.old.ready ≡ true → place.new ≡ place.old }
    ensures tried { place.new.tried ≡ place.old.tried }
    ensures found { OnOk result (place.old.ready ≡ false → place.old.tried ≡ 0
        → FindsFree F.SLOTS (F.state flash.old).words (free_slots F.SLOTS place.new)) }
    ensures looks { is_fresh place.old ≡ true → (is_fresh place.new ≡ true)
        ⊎ FindsFree F.SLOTS (F.state flash.old).words (free_slots F.SLOTS place.new) }
    ensures paced { (extra : ℕ) → place.old.ready ≡ false → lead_of F.PAGES F.SECTORS < free_slots F.SLOTS place.new
        → KeepsPace F.PAGES F.SLOTS F.SECTORS extra place.new }
    ensures in_pace { OnOk result ((extra : ℕ) → extra ≤ extra_of F.PAGES F.SLOTS F.SECTORS
        → WillKeepPace F.PAGES F.SLOTS F.SECTORS F.sector_start (F.state flash.old).words extra place.old
        → KeepsPace F.PAGES F.SLOTS F.SECTORS extra place.new) }
    ensures stands { (extra : ℕ) → extra ≤ extra_of F.PAGES F.SLOTS F.SECTORS
        → WillKeepPace F.PAGES F.SLOTS F.SECTORS F.sector_start (F.state flash.old).words extra place.old
        → WillKeepPace F.PAGES F.SLOTS F.SECTORS F.sector_start (F.state flash.new).words extra place.new }
    // It finds how far the move has come.
    ensures furthest { place.old.ready ≡ false → place.new.ready ≡ true
        → F.SLOTS ≤ place.new.next + lead_of F.PAGES F.SECTORS
        → FindsFurthest F.PAGES F.SLOTS F.SECTORS F.sector_start (F.state flash.old).words place.new.turn place.new.next
        (extra_of F.PAGES F.SLOTS F.SECTORS) place.new.erased place.new.copied place.new.older }
    // No slot is passed over, and none is taken back.
    ensures same_next { SameNext F.SLOTS (log_value F.PAGES F.SLOTS F.SECTORS (F.state flash.old) place.old)
        (log_value F.PAGES F.SLOTS F.SECTORS (F.state flash.new) place.new) }
    ensures light { Lights (F.state flash.old) (F.state flash.new) result }
{
    find_pages(flash, place)?;
    let word = read_page_word(flash, home(place.turn), &place.table, at / 16, at % 16)?;
    Ok(word)
}

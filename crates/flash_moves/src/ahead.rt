//! The move to the other area, a step at each write: so that no write has to move all pages.
ghost use Rattle.std.specs.Prelude.{◌≡◌, ◌≢◌, ◌<◌, ◌≤◌, ◌+◌, ◌-◌, ◌*◌, ℕ, true, false, slice_index};
ghost use Rattle.std.specs.Prelude.{IfOk, OnErr, OnOk};
ghost use Rattle.flash_device.specs.FlashCalls.{Costs, SameElsewhere, Tries};
ghost use Rattle.flash_device.specs.FlashLogs.{base_in, close_b, close_of, find, turn_of, words_of};
ghost use Rattle.flash_device.specs.FlashLogs.{is_marked as has_mark};
ghost use Rattle.flash_moves.specs.Paces.{EndsStep, HasStepped, HasMoved, IsCaughtUp, IsInPace, IsRoomy, KeepsFree};
ghost use Rattle.flash_moves.specs.Paces.{KeepsHome, KeepsRoom, StaysInArea};
ghost use Rattle.flash_moves.specs.Paces.{MovesWell, StandsSo, StaysCopied, failed_since, lead_of, lost_since};
ghost use Rattle.flash_moves.specs.Paces.{move_steps_of};
ghost use Rattle.flash_device.specs.PageTables.{IsPageTable};
ghost use Rattle.flash_moves.specs.Places.{IsLog};
ghost use Rattle.flash_moves.specs.Rings.{IsRing};
ghost use Rattle.flash_area.specs.Spares.{HasCopies, spare_in};
ghost use Rattle.flash_device.specs.declared.layout.TheConstants.{STEP_PAGES};

use crate::place::PageMap;
use crate::turns::pass_witness;
use flash_area::{close, first_sector_of_spare, home, put_in_spare, record_of, scan, spare};
use flash_device::{Flash, PageTable, STEP_PAGES, copy_steps};
use nvm_board::DeviceErr;

/// The number of times that a write is tried, until a Fault of the flash is returned.
pub const TRIES: u8 = 8;

/// Copies a page to a free slot of the other area below `end`, and returns the first one that is free after it.
fn copy_ahead<F: Flash>(
    flash: &mut F,
    turn: u8,
    table: &F::Table,
    next: u16,
    end: u16,
    page: u16,
) -> Result<u16, DeviceErr>
    requires lit { (F.state flash.old).dark ≡ false }
    requires turn { turn ≡ turn_of F.SLOTS (F.state flash.old).words }
    requires moves { (turn < 3) × (turn ≢ 1) × IsRing F.SLOTS (F.state flash.old).words }
    requires entry { (page < F.PAGES)
        × (slice_index (F.Table.entries table.now) page
        ≡ find (F.state flash.old).words (base_in F.SLOTS turn) F.SLOTS page) }
    requires copies { (next < end) × (end ≤ F.SLOTS)
        × HasCopies F.PAGES F.SLOTS (F.state flash.old).words
        (words_of F.PAGES F.SLOTS (F.state flash.old).words) (base_in F.SLOTS turn) (spare_in F.SLOTS turn)
        page next 0 }
    ensures elsewhere { SameElsewhere (F.state flash.old).words (spare_in F.SLOTS turn) (20 * F.SLOTS)
        (F.state flash.new).words }
    ensures copies { IfOk result (λ n. HasCopies F.PAGES F.SLOTS (F.state flash.new).words
        (words_of F.PAGES F.SLOTS (F.state flash.new).words) (base_in F.SLOTS turn) (spare_in F.SLOTS turn)
        (page + 1) n 0) }
    // At every exit it took one slot at most, and one more for each Fault, and left the copies before it.
    ensures torn { next + 1 + ((F.state flash.new).faults - (F.state flash.old).faults) ≤ F.SLOTS
        → StaysCopied F.PAGES F.SLOTS (F.state flash.old).words (F.state flash.new).words turn page next
        (next + 1 + ((F.state flash.new).faults - (F.state flash.old).faults)) }
    ensures most { IfOk result (λ n. n ≤ end) }
    ensures passes { IfOk result (λ n. n + (F.state flash.old).faults ≤ next + 1 + (F.state flash.new).faults) }
    ensures light { Tries 1 (F.state flash.old) (F.state flash.new) result }
    ensures work { Costs 2 2 (F.state flash.old) (F.state flash.new) }
    ensures erases { (F.state flash.new).erases ≡ (F.state flash.old).erases }
{
    if table.entry(page) == 0 {
        return Ok(next);
    }
    let found = record_of(flash, home(turn), table, page)?;
    let slot = put_in_spare(flash, spare(turn), next, end, &found)?;
    Ok(slot + 1)
}

/// Copies the pages of a step, and returns the first slot of the other area that is free.
fn copy_step<F: Flash>(
    flash: &mut F,
    turn: u8,
    table: &F::Table,
    next: u16,
    first: u16,
) -> Result<u16, DeviceErr>
    requires lit { (F.state flash.old).dark ≡ false }
    requires turn { turn ≡ turn_of F.SLOTS (F.state flash.old).words }
    requires moves { (turn < 3) × (turn ≢ 1) × IsRing F.SLOTS (F.state flash.old).words }
    requires index { (first + STEP_PAGES ≤ F.PAGES)
        × IsPageTable F.PAGES (F.state flash.old).words (base_in F.SLOTS turn) F.SLOTS (F.Table.entries table.now) }
    requires copies { (next + STEP_PAGES ≤ F.SLOTS)
        × HasCopies F.PAGES F.SLOTS (F.state flash.old).words
        (words_of F.PAGES F.SLOTS (F.state flash.old).words) (base_in F.SLOTS turn) (spare_in F.SLOTS turn)
        first next 0 }
    ensures elsewhere { SameElsewhere (F.state flash.old).words (spare_in F.SLOTS turn) (20 * F.SLOTS)
        (F.state flash.new).words }
    ensures copies { IfOk result (λ n. HasCopies F.PAGES F.SLOTS (F.state flash.new).words
        (words_of F.PAGES F.SLOTS (F.state flash.new).words) (base_in F.SLOTS turn) (spare_in F.SLOTS turn)
        (first + STEP_PAGES) n 0) }
    ensures torn { next + STEP_PAGES + ((F.state flash.new).faults - (F.state flash.old).faults) ≤ F.SLOTS
        → StaysCopied F.PAGES F.SLOTS (F.state flash.old).words (F.state flash.new).words turn first next
        (next + STEP_PAGES + ((F.state flash.new).faults - (F.state flash.old).faults)) }
    ensures passes { IfOk result (λ n. n + (F.state flash.old).faults
        ≤ next + STEP_PAGES + (F.state flash.new).faults) }
    ensures light { Tries 1 (F.state flash.old) (F.state flash.new) result }
    ensures work { Costs 32 2 (F.state flash.old) (F.state flash.new) }
    ensures erases { (F.state flash.new).erases ≡ (F.state flash.old).erases }
{
    let mut free = next;
    for k in 0..STEP_PAGES {
        let end = F::SLOTS - STEP_PAGES + k + 1;
        free = copy_ahead(flash, turn, table, free, end, first + k)?;
    }
    Ok(free)
}

/// The most steps that a move takes: an erase of each sector, the copies, and one that passes the turn to the witness.
pub fn move_steps<F: Flash>() -> u16
    ensures { result ≡ move_steps_of F.PAGES F.SECTORS }
{
    F::SECTORS + copy_steps::<F>() + 1
}

/// The number of free slots at which a move begins: one for each of its steps, and those of the tries of a write that
/// may fail.
pub fn lead<F: Flash>() -> u16
    ensures { result ≡ lead_of F.PAGES F.SECTORS }
{
    move_steps::<F>() + u16::from(TRIES)
}

/// Passes the turn to the other area, which has all pages.
pub fn pass_turn<F: Flash>(flash: &mut F, place: &mut PageMap<F::Table>) -> Result<(), DeviceErr>
    requires lit { (F.state flash.old).dark ≡ false }
    requires turn { place.old.turn ≡ turn_of F.SLOTS (F.state flash.old).words }
    requires moves { (place.old.turn < 3) × (place.old.turn ≢ 1) × IsRing F.SLOTS (F.state flash.old).words }
    requires copies { HasCopies F.PAGES F.SLOTS (F.state flash.old).words
        (words_of F.PAGES F.SLOTS (F.state flash.old).words) (base_in F.SLOTS place.old.turn)
        (spare_in F.SLOTS place.old.turn) F.PAGES place.old.behind 0 }
    requires unready { place.old.ready ≡ false }
    ensures words { words_of F.PAGES F.SLOTS (F.state flash.new).words
        ≡ words_of F.PAGES F.SLOTS (F.state flash.old).words }
    ensures log { IsLog F.Table.entries F.PAGES F.SLOTS F.SECTORS F.sector_start (F.state flash.new).words place.new }
    ensures ready { OnOk result (place.new.ready ≡ true) }
    ensures fresh { OnOk result (HasMoved place.new place.old.behind) }
    ensures older { OnOk result (place.new.older ≡ 0) }
    // A close that fails may have passed the turn, so no slot counts as tried.
    ensures unready { OnErr result ((place.new.ready ≡ false) × (place.new.tried ≡ 0)) }
    ensures tried { place.new.tried ≡ 0 }
    ensures turned { OnOk result (base_in F.SLOTS (turn_of F.SLOTS (F.state flash.new).words)
        ≡ spare_in F.SLOTS place.old.turn) }
    ensures elsewhere { SameElsewhere (F.state flash.old).words (close_of F.SLOTS place.old.turn) 2
        (F.state flash.new).words }
    ensures light { Tries 1 (F.state flash.old) (F.state flash.new) result }
    ensures work { Costs 1 2 (F.state flash.old) (F.state flash.new) }
    // However often the flash fails, it begins one program.
    ensures most { (F.state flash.new).operations ≤ (F.state flash.old).operations + 1 }
    ensures erases { (F.state flash.new).erases ≡ (F.state flash.old).erases }
{
    let next = spare(place.turn);
    place.tried = 0;
    close(flash, place.turn)?;
    scan(flash, next, &mut place.table)?;
    place.turn = next;
    place.next = place.behind;
    place.erased = 0;
    place.copied = 0;
    place.behind = 0;
    place.older = 0;
    place.ready = true;
    Ok(())
}

/// Passes the turn to the witness.
pub fn pass_on<F: Flash>(flash: &mut F, place: &mut PageMap<F::Table>) -> Result<(), DeviceErr>
    requires lit { (F.state flash.old).dark ≡ false }
    requires log { IsLog F.Table.entries F.PAGES F.SLOTS F.SECTORS F.sector_start (F.state flash.old).words place.old }
    requires ready { place.old.ready ≡ true }
    requires turn { place.old.turn ≡ 1 }
    ensures words { words_of F.PAGES F.SLOTS (F.state flash.new).words
        ≡ words_of F.PAGES F.SLOTS (F.state flash.old).words }
    ensures log { IsLog F.Table.entries F.PAGES F.SLOTS F.SECTORS F.sector_start (F.state flash.new).words place.new }
    ensures ready { OnOk result (place.new.ready ≡ true) }
    ensures step { OnOk result (place.new
        ≡ record place.old { ready = true; turn = 2; erased = 0; copied = 0; behind = 0; older = 0 }) }
    ensures unready { OnErr result ((place.new.ready ≡ false) × (place.new.tried ≡ place.old.tried)) }
    ensures older { place.new.older ≡ 0 }
    ensures area { SameElsewhere (F.state flash.old).words (close_b F.SLOTS) 4 (F.state flash.new).words }
    ensures mark { OnOk result (has_mark (F.state flash.new).words (close_b F.SLOTS) ≡ true) }
    ensures tried { place.new.tried ≡ place.old.tried }
    ensures home { KeepsHome F.SLOTS (F.state flash.old).words (F.state flash.new).words }
    ensures keeps_free { KeepsFree F.PAGES F.SLOTS (F.state flash.old) (F.state flash.new) }
    ensures keeps_room { KeepsRoom F.PAGES F.SLOTS (F.state flash.old).words (F.state flash.new).words }
    ensures stands { (extra : ℕ) → IsCaughtUp F.PAGES F.SLOTS F.SECTORS extra place.old
        → StandsSo F.PAGES F.SLOTS F.SECTORS F.sector_start (F.state flash.new).words extra place.new
        (HasStepped F.PAGES F.SLOTS F.SECTORS extra place.new) }
    ensures light { Tries 1 (F.state flash.old) (F.state flash.new) result }
    ensures work { Costs 2 2 (F.state flash.old) (F.state flash.new) }
    ensures erases { (F.state flash.new).erases ≤ (F.state flash.old).erases + 1 }
{
    place.ready = false;
    place.erased = 0;
    place.copied = 0;
    place.behind = 0;
    place.older = 0;
    pass_witness(flash)?;
    place.turn = 2;
    place.ready = true;
    Ok(())
}

/// Erases the next sector of the other area.
fn erase_next<F: Flash>(flash: &mut F, place: &mut PageMap<F::Table>) -> Result<(), DeviceErr>
    requires lit { (F.state flash.old).dark ≡ false }
    requires log { IsLog F.Table.entries F.PAGES F.SLOTS F.SECTORS F.sector_start (F.state flash.old).words place.old }
    requires ready { place.old.ready ≡ true }
    requires moves { (place.old.turn ≢ 1) × (place.old.erased < F.SECTORS) }
    ensures words { words_of F.PAGES F.SLOTS (F.state flash.new).words
        ≡ words_of F.PAGES F.SLOTS (F.state flash.old).words }
    ensures log { IsLog F.Table.entries F.PAGES F.SLOTS F.SECTORS F.sector_start (F.state flash.new).words place.new }
    ensures ready { OnOk result (place.new.ready ≡ true) }
    ensures step { OnOk result (place.new ≡ record place.old { ready = true; erased = place.old.erased + 1 }) }
    ensures unready { OnErr result (place.new.ready ≡ false) }
    ensures older { place.new.older ≡ place.old.older }
    ensures tried { place.new.tried ≡ place.old.tried }
    ensures home { KeepsHome F.SLOTS (F.state flash.old).words (F.state flash.new).words }
    ensures stands { (extra : ℕ) → IsCaughtUp F.PAGES F.SLOTS F.SECTORS extra place.old
        → StandsSo F.PAGES F.SLOTS F.SECTORS F.sector_start (F.state flash.new).words extra place.new
        (HasStepped F.PAGES F.SLOTS F.SECTORS extra place.new) }
    ensures light { Tries 1 (F.state flash.old) (F.state flash.new) result }
    ensures work { Costs 1 2 (F.state flash.old) (F.state flash.new) }
    ensures erases { (F.state flash.new).erases ≤ (F.state flash.old).erases + 1 }
{
    place.ready = false;
    flash.erase(first_sector_of_spare::<F>(place.turn) + place.erased)?;
    place.erased += 1;
    place.ready = true;
    Ok(())
}

/// Copies the next pages to the other area. Behind the last it passes the turn. Where there is no room it begins the
/// move anew.
fn copy_next<F: Flash>(flash: &mut F, place: &mut PageMap<F::Table>) -> Result<(), DeviceErr>
    requires lit { (F.state flash.old).dark ≡ false }
    requires log { IsLog F.Table.entries F.PAGES F.SLOTS F.SECTORS F.sector_start (F.state flash.old).words place.old }
    requires ready { place.old.ready ≡ true }
    requires moves { (place.old.turn ≢ 1) × (place.old.erased ≡ F.SECTORS) × (place.old.older ≡ 0) }
    ensures words { words_of F.PAGES F.SLOTS (F.state flash.new).words
        ≡ words_of F.PAGES F.SLOTS (F.state flash.old).words }
    ensures log { IsLog F.Table.entries F.PAGES F.SLOTS F.SECTORS F.sector_start (F.state flash.new).words place.new }
    ensures ready { OnOk result (place.new.ready ≡ true) }
    ensures unready { OnErr result (place.new.ready ≡ false) }
    ensures older { OnOk result (place.new.older ≡ 0) }
    ensures tried { place.new.tried ≤ place.old.tried }
    ensures home { KeepsHome F.SLOTS (F.state flash.old).words (F.state flash.new).words }
    // In the same area no slot is passed.
    ensures next { OnOk result (StaysInArea F.SLOTS (F.state flash.old).words (F.state flash.new).words
        → place.new.next ≡ place.old.next) }
    ensures steps { OnOk result ((extra : ℕ)
        → IsRoomy F.PAGES F.SLOTS F.SECTORS (extra + failed_since (F.state flash.old) (F.state flash.new))
        → IsCaughtUp F.PAGES F.SLOTS F.SECTORS extra place.old
        → EndsStep F.PAGES F.SLOTS F.SECTORS place.old place.new) }
    ensures stands { (extra : ℕ)
        → IsRoomy F.PAGES F.SLOTS F.SECTORS (extra + failed_since (F.state flash.old) (F.state flash.new))
        → F.SLOTS ≤ place.old.next + lead_of F.PAGES F.SECTORS
        → IsCaughtUp F.PAGES F.SLOTS F.SECTORS extra place.old
        → StandsSo F.PAGES F.SLOTS F.SECTORS F.sector_start (F.state flash.new).words
        (extra + lost_since (F.state flash.old) (F.state flash.new)) place.new
        (HasStepped F.PAGES F.SLOTS F.SECTORS (extra + lost_since (F.state flash.old) (F.state flash.new)) place.new) }
    ensures moves_well { OnOk result ((extra : ℕ) → IsRoomy F.PAGES F.SLOTS F.SECTORS extra
        → IsCaughtUp F.PAGES F.SLOTS F.SECTORS extra place.old → (F.state flash.new).faults ≡ (F.state flash.old).faults
        → MovesWell F.PAGES extra place.old place.new) }
    ensures light { Tries 1 (F.state flash.old) (F.state flash.new) result }
    ensures work { Costs 33 2 (F.state flash.old) (F.state flash.new) }
    ensures erases { (F.state flash.new).erases ≡ (F.state flash.old).erases }
{
    let most = F::SLOTS - STEP_PAGES;
    if place.behind > most {
        place.erased = 0;
        place.copied = 0;
        place.behind = 0;
        place.older = 0;
        return Ok(());
    }
    place.ready = false;
    let first = STEP_PAGES * place.copied;
    let behind = copy_step(flash, place.turn, &place.table, place.behind, first)?;
    place.behind = behind;
    place.copied += 1;
    if place.copied == copy_steps::<F>() {
        return pass_turn(flash, place);
    }
    place.ready = true;
    Ok(())
}

/// Takes a step of the move, if the area is nearly full.
pub fn take_step<F: Flash>(flash: &mut F, place: &mut PageMap<F::Table>) -> Result<(), DeviceErr>
    requires lit { (F.state flash.old).dark ≡ false }
    requires log { IsLog F.Table.entries F.PAGES F.SLOTS F.SECTORS F.sector_start (F.state flash.old).words place.old }
    requires ready { place.old.ready ≡ true }
    requires older { place.old.older ≡ 0 }
    ensures words { words_of F.PAGES F.SLOTS (F.state flash.new).words
        ≡ words_of F.PAGES F.SLOTS (F.state flash.old).words }
    ensures log { IsLog F.Table.entries F.PAGES F.SLOTS F.SECTORS F.sector_start (F.state flash.new).words place.new }
    ensures ready { OnOk result (place.new.ready ≡ true) }
    ensures unready { OnErr result (place.new.ready ≡ false) }
    ensures older { OnOk result (place.new.older ≡ 0) }
    ensures tried { place.new.tried ≤ place.old.tried }
    ensures home { KeepsHome F.SLOTS (F.state flash.old).words (F.state flash.new).words }
    // In the same area no slot is passed.
    ensures next { OnOk result (StaysInArea F.SLOTS (F.state flash.old).words (F.state flash.new).words
        → place.new.next ≡ place.old.next) }
    ensures steps { OnOk result ((extra : ℕ)
        → IsRoomy F.PAGES F.SLOTS F.SECTORS (extra + failed_since (F.state flash.old) (F.state flash.new))
        → IsCaughtUp F.PAGES F.SLOTS F.SECTORS extra place.old
        → F.SLOTS ≤ place.old.next + lead_of F.PAGES F.SECTORS
        → EndsStep F.PAGES F.SLOTS F.SECTORS place.old place.new) }
    ensures stands { (extra : ℕ)
        → IsRoomy F.PAGES F.SLOTS F.SECTORS (extra + failed_since (F.state flash.old) (F.state flash.new))
        → IsCaughtUp F.PAGES F.SLOTS F.SECTORS extra place.old
        → StandsSo F.PAGES F.SLOTS F.SECTORS F.sector_start (F.state flash.new).words
        (extra + lost_since (F.state flash.old) (F.state flash.new)) place.new
        (HasStepped F.PAGES F.SLOTS F.SECTORS (extra + lost_since (F.state flash.old) (F.state flash.new)) place.new) }
    ensures moves_well { OnOk result ((extra : ℕ) → IsRoomy F.PAGES F.SLOTS F.SECTORS extra
        → IsCaughtUp F.PAGES F.SLOTS F.SECTORS extra place.old → (F.state flash.new).faults ≡ (F.state flash.old).faults
        → MovesWell F.PAGES extra place.old place.new) }
    ensures light { Tries 1 (F.state flash.old) (F.state flash.new) result }
    ensures work { Costs 33 2 (F.state flash.old) (F.state flash.new) }
    ensures erases { (F.state flash.new).erases ≤ (F.state flash.old).erases + 1 }
    ensures idle { place.old.next + lead_of F.PAGES F.SECTORS < F.SLOTS
        → (place.new ≡ place.old) × (F.state flash.new ≡ F.state flash.old) }
    ensures lost { (extra : ℕ) → (F.state flash.old).erases < (F.state flash.new).erases
        → IsCaughtUp F.PAGES F.SLOTS F.SECTORS extra place.old
        → IsInPace F.PAGES F.SLOTS F.SECTORS F.sector_start (F.state flash.new).words extra }
{
    if F::SLOTS - place.next > lead::<F>() {
        return Ok(());
    }
    if place.turn == 1 {
        return pass_on(flash, place);
    }
    let sectors = F::SECTORS;
    if place.erased < sectors {
        return erase_next(flash, place);
    }
    copy_next(flash, place)
}

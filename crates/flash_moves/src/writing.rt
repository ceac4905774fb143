//! A write of the board: a record in a free slot.
ghost use Rattle.std.specs.Prelude.{◌≡◌, ◌⊎◌, ◌<◌, ◌≤◌, ◌+◌, ◌*◌, ℕ, true, false, length, OnErr, OnOk};
ghost use Rattle.nvm_board.specs.History.{written};
ghost use Rattle.flash_device.specs.FlashCalls.{Costs, Lights, SameElsewhere, Tries};
ghost use Rattle.flash_device.specs.PageTables.{IsPageTable, AreFree};
ghost use Rattle.flash_device.specs.FlashLogs.{base_in, find, slot_of, turn_of, words_of};
ghost use Rattle.flash_moves.specs.Paces.{IsCaughtUp, IsInPace, IsRoomy, KeepsHome, KeepsPace, StandsSo};
ghost use Rattle.flash_moves.specs.Paces.{failed_since, lost_since, steps_left};
ghost use Rattle.flash_moves.specs.Places.{IsLog};
ghost use Rattle.flash_moves.specs.Rings.{SameMarks};

use crate::place::PageMap;
use flash_area::{home, overlay, program_record, put_in_spare, record_of, spare};
use flash_device::{Flash, PageTable, slot_at};
use nvm_board::DeviceErr;

/// Writes a run of a page. At every exit all words of the run are old, or all are new.
pub fn write_run<F: Flash>(
    flash: &mut F,
    area: u8,
    table: &mut F::Table,
    next: u16,
    page: u16,
    first: u8,
    words: &[u32],
) -> Result<(), DeviceErr>
    requires lit { (F.state flash.old).dark ≡ false }
    requires home { base_in F.SLOTS area ≡ base_in F.SLOTS (turn_of F.SLOTS (F.state flash.old).words) }
    requires index { IsPageTable F.PAGES (F.state flash.old).words (base_in F.SLOTS area) F.SLOTS
        (F.Table.entries table.old) }
    requires free { AreFree (F.state flash.old).words (base_in F.SLOTS area) next F.SLOTS }
    requires room { next < F.SLOTS }
    requires page { page < F.PAGES }
    requires run { first + length words.now ≤ 16 }
    ensures whole { (words_of F.PAGES F.SLOTS (F.state flash.new).words
        ≡ words_of F.PAGES F.SLOTS (F.state flash.old).words)
        ⊎ (words_of F.PAGES F.SLOTS (F.state flash.new).words
        ≡ written (words_of F.PAGES F.SLOTS (F.state flash.old).words) (16 * page + first) words.now) }
    ensures done { OnOk result (words_of F.PAGES F.SLOTS (F.state flash.new).words
        ≡ written (words_of F.PAGES F.SLOTS (F.state flash.old).words) (16 * page + first) words.now) }
    ensures index { OnOk result (IsPageTable F.PAGES (F.state flash.new).words (base_in F.SLOTS area) F.SLOTS
        (F.Table.entries table.new)) }
    ensures free { AreFree (F.state flash.new).words (base_in F.SLOTS area) (next + 1) F.SLOTS }
    ensures elsewhere { SameElsewhere (F.state flash.old).words (slot_of (base_in F.SLOTS area) next) 20
        (F.state flash.new).words }
    ensures last { OnOk result (find (F.state flash.new).words (base_in F.SLOTS area) F.SLOTS page ≡ next + 1) }
    ensures marks { SameMarks F.SLOTS (F.state flash.old).words (F.state flash.new).words }
    // A page that the area has stays there.
    ensures held { (p : ℕ) → find (F.state flash.new).words (base_in F.SLOTS area) F.SLOTS p ≡ 0
        → find (F.state flash.old).words (base_in F.SLOTS area) F.SLOTS p ≡ 0 }
    ensures work { (F.state flash.new).operations ≤ (F.state flash.old).operations + 2 }
    ensures erases { (F.state flash.new).erases ≡ (F.state flash.old).erases }
    ensures light { Lights (F.state flash.old) (F.state flash.new) result }
{
    let mut found = record_of(flash, area, table, page)?;
    overlay(&mut found, first, words);
    program_record(flash, slot_at::<F>(area, next), &found)?;
    table.set_entry(page, next + 1);
    Ok(())
}

/// Copies the page again whose copy in the other area may be older. If that area is full, the move begins anew.
pub fn copy_older<F: Flash>(flash: &mut F, place: &mut PageMap<F::Table>) -> Result<(), DeviceErr>
    requires lit { (F.state flash.old).dark ≡ false }
    requires log { IsLog F.Table.entries F.PAGES F.SLOTS F.SECTORS F.sector_start (F.state flash.old).words place.old }
    requires ready { place.old.ready ≡ true }
    ensures words { words_of F.PAGES F.SLOTS (F.state flash.new).words
        ≡ words_of F.PAGES F.SLOTS (F.state flash.old).words }
    ensures log { IsLog F.Table.entries F.PAGES F.SLOTS F.SECTORS F.sector_start (F.state flash.new).words place.new }
    ensures ready { OnOk result (place.new.ready ≡ true) }
    ensures older { OnOk result (place.new.older ≡ 0) }
    ensures unready { OnErr result (place.new.ready ≡ false) }
    ensures next { place.new.next ≡ place.old.next }
    ensures steps { OnOk result (place.old.behind < F.SLOTS
        → steps_left F.PAGES F.SECTORS place.new ≡ steps_left F.PAGES F.SECTORS place.old) }
    ensures tried { place.new.tried ≡ place.old.tried }
    ensures turn { turn_of F.SLOTS (F.state flash.new).words ≡ turn_of F.SLOTS (F.state flash.old).words }
    ensures home { KeepsHome F.SLOTS (F.state flash.old).words (F.state flash.new).words }
    ensures stands { (extra : ℕ)
        → IsRoomy F.PAGES F.SLOTS F.SECTORS (extra + failed_since (F.state flash.old) (F.state flash.new))
        → KeepsPace F.PAGES F.SLOTS F.SECTORS extra place.old
        → StandsSo F.PAGES F.SLOTS F.SECTORS F.sector_start (F.state flash.new).words
        (extra + lost_since (F.state flash.old) (F.state flash.new)) place.new
        (IsCaughtUp F.PAGES F.SLOTS F.SECTORS (extra + lost_since (F.state flash.old) (F.state flash.new)) place.new) }
    ensures lost { (extra : ℕ) → KeepsPace F.PAGES F.SLOTS F.SECTORS extra place.old
        → (F.state flash.new).faults ≡ (F.state flash.old).faults
        → IsInPace F.PAGES F.SLOTS F.SECTORS F.sector_start (F.state flash.new).words (extra + 1) }
    ensures idle { place.old.copied ≡ 0 → (place.new ≡ place.old) × (F.state flash.new ≡ F.state flash.old) }
    ensures light { Tries 1 (F.state flash.old) (F.state flash.new) result }
    ensures work { Costs 2 2 (F.state flash.old) (F.state flash.new) }
    ensures erases { (F.state flash.new).erases ≡ (F.state flash.old).erases }
{
    if place.older == 0 {
        return Ok(());
    }
    if place.behind == F::SLOTS {
        place.erased = 0;
        place.copied = 0;
        place.behind = 0;
        place.older = 0;
        return Ok(());
    }
    place.ready = false;
    let found = record_of(flash, home(place.turn), &place.table, place.older - 1)?;
    let slot = put_in_spare(flash, spare(place.turn), place.behind, F::SLOTS, &found)?;
    place.behind = slot + 1;
    place.older = 0;
    place.ready = true;
    Ok(())
}

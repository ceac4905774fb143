//! What a write still knows behind a record that failed: all but the table of the pages, which it reads again.
ghost use Rattle.std.specs.Prelude.{◌≡◌, ◌⊎◌, ◌<◌, ◌≤◌, ◌+◌, ◌*◌, ℕ, true, false, OnErr, OnOk};
ghost use Rattle.flash_device.specs.FlashBlocks.{steps_of};
ghost use Rattle.flash_device.specs.FlashCalls.{Lights};
ghost use Rattle.flash_area.specs.Spares.{FindsFurthest};
ghost use Rattle.flash_moves.specs.Paces.{KeepsPace, OwnsOlder, extra_of, lead_of};
ghost use Rattle.flash_moves.specs.Paces.{steps_left as steps_left_of};
ghost use Rattle.flash_moves.specs.Places.{IsLog};
ghost use Rattle.flash_log.specs.KeptParts.{KeepsPlace, WillPace};
ghost use Rattle.flash_log.specs.SlotsInTurn.{IsNextSlot};

use crate::steps::find_pages;
use flash_area::{home, scan};
use flash_device::{Flash, copy_steps};
use flash_moves::{PageMap, lead};
use nvm_board::DeviceErr;

/// The steps that are left of a move.
fn steps_left<F: Flash>(place: &PageMap<F::Table>) -> u16
    requires fits { (place.now.erased ≤ F.SECTORS) × (place.now.copied < steps_of F.PAGES) }
    ensures { result ≡ steps_left_of F.PAGES F.SECTORS place.now }
{
    let first = if place.turn == 1 { 1 } else { 0 };
    first + (F::SECTORS - place.erased) + (copy_steps::<F>() - place.copied)
}

/// Returns true if a record of a page may take the next slot: it's free beside those of the steps that are left, and
/// no copy of another page may be older.
pub fn has_slot<F: Flash>(place: &PageMap<F::Table>, page: u16) -> bool
    requires fits { (place.now.erased ≤ F.SECTORS) × (place.now.copied < steps_of F.PAGES)
        × (place.now.next ≤ F.SLOTS) }
    requires page { page < F.PAGES }
    ensures yes { result ≡ true → OwnsOlder page place.now
        × (steps_left_of F.PAGES F.SECTORS place.now + place.now.next < F.SLOTS) }
    ensures no { result ≡ false → OwnsOlder page place.now
        → F.SLOTS ≤ steps_left_of F.PAGES F.SECTORS place.now + place.now.next }
{
    (place.older == 0 || place.older == page + 1) && steps_left::<F>(place) < F::SLOTS - place.next
}

/// Returns true if the copies in the other area belong to a move that is due, or there are none.
pub fn goes_on<F: Flash>(place: &PageMap<F::Table>) -> bool
    requires { place.now.next ≤ F.SLOTS }
    ensures yes { result ≡ true → 0 < place.now.copied + place.now.behind
        → F.SLOTS ≤ place.now.next + lead_of F.PAGES F.SECTORS }
    ensures no { result ≡ false → (0 < place.now.copied + place.now.behind)
        × (place.now.next + lead_of F.PAGES F.SECTORS < F.SLOTS) }
{
    (place.copied == 0 && place.behind == 0) || F::SLOTS - place.next <= lead::<F>()
}

/// Reads the table of the pages again, where all else is known.
fn read_table<F: Flash>(
    flash: &mut F,
    place: &mut PageMap<F::Table>,
    page: u16,
) -> Result<(), DeviceErr>
    requires lit { (F.state flash.old).dark ≡ false }
    requires log { IsLog F.Table.entries F.PAGES F.SLOTS F.SECTORS F.sector_start (F.state flash.old).words place.old }
    requires unready { place.old.ready ≡ false }
    requires keeps { KeepsPlace F.PAGES F.SLOTS F.SECTORS F.sector_start (F.state flash.old).words page place.old }
    ensures words { (F.state flash.new).words ≡ (F.state flash.old).words }
    ensures work { (F.state flash.new).operations ≡ (F.state flash.old).operations }
    ensures erases { (F.state flash.new).erases ≡ (F.state flash.old).erases }
    ensures log { IsLog F.Table.entries F.PAGES F.SLOTS F.SECTORS F.sector_start (F.state flash.new).words place.new }
    ensures is { OnOk result (place.new
        ≡ record place.old { ready = true; table = place.new.table; next = place.old.tried }) }
    ensures same { OnErr result (place.new ≡ record place.old { table = place.new.table }) }
    ensures light { Lights (F.state flash.old) (F.state flash.new) result }
{
    scan(flash, home(place.turn), &mut place.table)?;
    place.next = place.tried;
    place.ready = true;
    Ok(())
}

/// Finds the pages behind a Fault, for a record of a page. What is still known of them is kept, if that leaves a slot
/// for the record: then the table alone is read. Else all is looked for.
pub fn find_again<F: Flash>(
    flash: &mut F,
    place: &mut PageMap<F::Table>,
    kept: &mut bool,
    page: u16,
) -> Result<(), DeviceErr>
    requires lit { (F.state flash.old).dark ≡ false }
    requires log { IsLog F.Table.entries F.PAGES F.SLOTS F.SECTORS F.sector_start (F.state flash.old).words place.old }
    requires unready { place.old.ready ≡ false }
    requires page { page < F.PAGES }
    requires keeps { kept.old ≡ true
        → KeepsPlace F.PAGES F.SLOTS F.SECTORS F.sector_start (F.state flash.old).words page place.old }
    ensures words { (F.state flash.new).words ≡ (F.state flash.old).words }
    ensures work { (F.state flash.new).operations ≡ (F.state flash.old).operations }
    ensures erases { (F.state flash.new).erases ≡ (F.state flash.old).erases }
    ensures log { IsLog F.Table.entries F.PAGES F.SLOTS F.SECTORS F.sector_start (F.state flash.new).words place.new }
    ensures ready { OnOk result (place.new.ready ≡ true) }
    ensures unready { OnErr result (place.new.ready ≡ false) }
    ensures tried { place.new.tried ≡ place.old.tried }
    ensures next { OnOk result ((n : ℕ) → n < F.SLOTS
        → IsNextSlot F.SLOTS (F.state flash.old).words place.old.tried n → place.new.next ≡ n) }
    ensures is_next { OnOk result (place.old.tried ≤ F.SLOTS
        → IsNextSlot F.SLOTS (F.state flash.old).words place.old.tried place.new.next) }
    ensures begun { OnOk result (0 < place.new.copied + place.new.behind
        → F.SLOTS ≤ place.new.next + lead_of F.PAGES F.SECTORS) }
    // It has a slot for the record, or comes as far as the flash shows.
    ensures furthest { OnOk result ((OwnsOlder page place.new
        × (steps_left_of F.PAGES F.SECTORS place.new + place.new.next < F.SLOTS))
        ⊎ (F.SLOTS ≤ place.new.next + lead_of F.PAGES F.SECTORS
        → FindsFurthest F.PAGES F.SLOTS F.SECTORS F.sector_start (F.state flash.old).words place.new.turn place.new.next
        (extra_of F.PAGES F.SLOTS F.SECTORS) place.new.erased place.new.copied place.new.older)) }
    // What is known stays as long as it leaves a slot for the record.
    ensures keeps { kept.new ≡ true → kept.old ≡ true }
    ensures holds { OnErr result (kept.new ≡ true
        → KeepsPlace F.PAGES F.SLOTS F.SECTORS F.sector_start (F.state flash.new).words page place.new) }
    ensures room { OnOk result (kept.old ≡ true
        → steps_left_of F.PAGES F.SECTORS place.old + place.old.tried < F.SLOTS
        → OwnsOlder page place.new × (steps_left_of F.PAGES F.SECTORS place.new + place.new.next
        ≡ steps_left_of F.PAGES F.SECTORS place.old + place.old.tried)) }
    // At every exit the move has come as far.
    ensures known { kept.old ≡ true → steps_left_of F.PAGES F.SECTORS place.old + place.old.tried < F.SLOTS
        → (kept.new ≡ true) × (steps_left_of F.PAGES F.SECTORS place.new ≡ steps_left_of F.PAGES F.SECTORS place.old) }
    ensures in_pace { OnOk result ((extra : ℕ) → extra ≤ extra_of F.PAGES F.SLOTS F.SECTORS
        → WillPace kept.old F.PAGES F.SLOTS F.SECTORS F.sector_start (F.state flash.old).words extra place.old
        → KeepsPace F.PAGES F.SLOTS F.SECTORS extra place.new) }
    ensures stands { OnErr result ((extra : ℕ) → extra ≤ extra_of F.PAGES F.SLOTS F.SECTORS
        → WillPace kept.old F.PAGES F.SLOTS F.SECTORS F.sector_start (F.state flash.old).words extra place.old
        → WillPace kept.new F.PAGES F.SLOTS F.SECTORS F.sector_start (F.state flash.new).words extra place.new) }
    ensures light { Lights (F.state flash.old) (F.state flash.new) result }
{
    if !*kept {
        return find_pages(flash, place);
    }
    read_table(flash, place, page)?;
    if has_slot::<F>(place, page) {
        return Ok(());
    }
    place.ready = false;
    *kept = false;
    find_pages(flash, place)
}

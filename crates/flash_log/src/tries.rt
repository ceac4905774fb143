//! A write and its tries: it takes a step of the move at most once, and each try of its record takes the next slot.
ghost use Rattle.std.specs.Prelude.{◌≡◌, ◌⊎◌, ◌<◌, ◌≤◌, ◌+◌, ◌-◌, ◌*◌, ℕ, true, false, List, length};
ghost use Rattle.std.specs.Prelude.{IsErrOf, OnErr, OnOk};
ghost use Rattle.nvm_board.specs.History.{written};
ghost use Rattle.nvm_board.specs.declared.board.DeviceErr.TheVariants as DeviceErr;
ghost use Rattle.flash_device.specs.FlashCalls.{Costs, Lights, Tries};
ghost use Rattle.flash_device.specs.FlashLogs.{base_in, find, turn_of, words_of};
ghost use Rattle.flash_moves.specs.Paces.{CopiesNoPageAt, HasStepped, IsBrief, IsInPace, IsRoomy, KeepsPace, OwnsOlder};
ghost use Rattle.flash_moves.specs.Paces.{Pauses, RegainsSlots, StaysInArea, TakesSlot, WillKeepPace, extra_of};
ghost use Rattle.flash_moves.specs.Paces.{extra_slots};
ghost use Rattle.flash_moves.specs.Paces.{failed_since, free_slots, lead_of, lost_since, move_steps_of};
ghost use Rattle.flash_moves.specs.Paces.{steps_left as steps_left_of};
ghost use Rattle.flash_moves.specs.Places.{FindsFree, IsLog, log_value};
ghost use Rattle.flash_log.specs.KeptParts.{IsPacedBehind, KeepsPlace, WillPace};
ghost use Rattle.flash_log.specs.SlotsInTurn.{BeginsBy, GivesUp, HasOthersOlder, MeetsMoreOrPassesFewer, TakesInTurn};
ghost use Rattle.flash_log.specs.SlotsInTurn.{TriesOn, WillTake, passed_slots};
ghost use Rattle.flash_moves.specs.declared.ahead.TheConstants.{TRIES};

use crate::kept::{find_again, goes_on, has_slot};
use crate::steps::prepare;
use flash_area::{home, older_page};
use flash_device::Flash;
use flash_moves::{PageMap, TRIES, move_steps, write_run};
use nvm_board::DeviceErr;

/// If a copy of another page may be older, begins the move anew, as long as there are slots for that. A record makes
/// its own page older, and there is room for one.
fn keep_own<F: Flash>(place: &mut PageMap<F::Table>, page: u16)
    requires within { place.old.next ≤ F.SLOTS }
    requires page { page < F.PAGES }
    ensures log { (m : List ℕ) → IsLog F.Table.entries F.PAGES F.SLOTS F.SECTORS F.sector_start m place.old
        → IsLog F.Table.entries F.PAGES F.SLOTS F.SECTORS F.sector_start m place.new }
    ensures same { (place.new.ready ≡ place.old.ready) × (place.new.next ≡ place.old.next)
        × (place.new.tried ≡ place.old.tried) }
    ensures own { place.old.next + move_steps_of F.PAGES F.SECTORS < F.SLOTS → OwnsOlder page place.new }
    ensures full { F.SLOTS ≤ place.old.next + move_steps_of F.PAGES F.SECTORS → place.new ≡ place.old }
    ensures owned { OwnsOlder page place.old → place.new ≡ place.old }
    ensures begun { 0 < place.new.copied + place.new.behind → 0 < place.old.copied + place.old.behind }
    ensures paced { (extra : ℕ) → KeepsPace F.PAGES F.SLOTS F.SECTORS extra place.old
        → KeepsPace F.PAGES F.SLOTS F.SECTORS extra place.new }
{
    if place.older == 0 || place.older == page + 1 {
        return;
    }
    if F::SLOTS - place.next <= move_steps::<F>() {
        return;
    }
    place.erased = 0;
    place.copied = 0;
    place.behind = 0;
    place.older = 0;
}

/// Puts a record of a page into the next slot. At every exit all words of the run are old, or all are new. If that
/// fails, the slot is passed over: it may hold anything, even the whole record.
fn put_next<F: Flash>(
    flash: &mut F,
    place: &mut PageMap<F::Table>,
    page: u16,
    first: u8,
    words: &[u32],
) -> Result<(), DeviceErr>
    requires lit { (F.state flash.old).dark ≡ false }
    requires log { IsLog F.Table.entries F.PAGES F.SLOTS F.SECTORS F.sector_start (F.state flash.old).words place.old }
    requires ready { place.old.ready ≡ true }
    requires own { OwnsOlder page place.old }
    requires room { place.old.next < F.SLOTS }
    requires page { page < F.PAGES }
    requires run { first + length words.now ≤ 16 }
    ensures whole { (words_of F.PAGES F.SLOTS (F.state flash.new).words
        ≡ words_of F.PAGES F.SLOTS (F.state flash.old).words)
        ⊎ (words_of F.PAGES F.SLOTS (F.state flash.new).words
        ≡ written (words_of F.PAGES F.SLOTS (F.state flash.old).words) (16 * page + first) words.now) }
    ensures done { OnOk result (words_of F.PAGES F.SLOTS (F.state flash.new).words
        ≡ written (words_of F.PAGES F.SLOTS (F.state flash.old).words) (16 * page + first) words.now) }
    ensures log { IsLog F.Table.entries F.PAGES F.SLOTS F.SECTORS F.sector_start (F.state flash.new).words place.new }
    ensures light { Lights (F.state flash.old) (F.state flash.new) result }
    ensures work { (F.state flash.new).operations ≤ (F.state flash.old).operations + 2 }
    ensures erases { (F.state flash.new).erases ≡ (F.state flash.old).erases }
    ensures ready { OnOk result (place.new.ready ≡ true) }
    ensures unready { OnErr result (place.new.ready ≡ false) }
    // Behind a record that failed, all but the table is known still.
    ensures holds { OnErr result ((0 < place.old.copied + place.old.behind
        → F.SLOTS ≤ place.old.next + lead_of F.PAGES F.SECTORS)
        → KeepsPlace F.PAGES F.SLOTS F.SECTORS F.sector_start (F.state flash.new).words page place.new) }
    ensures paces { OnErr result ((extra : ℕ) → HasStepped F.PAGES F.SLOTS F.SECTORS extra place.old
        → IsPacedBehind F.PAGES F.SLOTS F.SECTORS extra place.new) }
    ensures tried { place.new.tried ≡ place.old.next + 1 }
    ensures next { OnOk result (place.new.next ≡ place.old.next + 1) }
    ensures behind { place.new.behind ≡ place.old.behind }
    ensures copied { place.new.copied ≡ place.old.copied }
    ensures stands { (extra : ℕ) → HasStepped F.PAGES F.SLOTS F.SECTORS extra place.old
        → WillKeepPace F.PAGES F.SLOTS F.SECTORS F.sector_start (F.state flash.new).words extra place.new }
    ensures in_pace { (extra : ℕ) → HasStepped F.PAGES F.SLOTS F.SECTORS extra place.old
        → IsInPace F.PAGES F.SLOTS F.SECTORS F.sector_start (F.state flash.new).words extra }
    ensures slots { (extra : ℕ) → HasStepped F.PAGES F.SLOTS F.SECTORS extra place.old
        → TakesInTurn F.SLOTS place.old.next 1
        (log_value F.PAGES F.SLOTS F.SECTORS (F.state flash.old) place.old)
        (log_value F.PAGES F.SLOTS F.SECTORS (F.state flash.new) place.new) }
    ensures step { steps_left_of F.PAGES F.SECTORS place.new ≡ steps_left_of F.PAGES F.SECTORS place.old }
    ensures turn { turn_of F.SLOTS (F.state flash.new).words ≡ turn_of F.SLOTS (F.state flash.old).words }
    ensures last { OnOk result (find (F.state flash.new).words
        (base_in F.SLOTS (turn_of F.SLOTS (F.state flash.new).words)) F.SLOTS page
        ≡ F.SLOTS - free_slots F.SLOTS place.new) }
{
    place.older = older_page(page, place.copied);
    place.ready = false;
    place.tried = place.next + 1;
    write_run(
        flash,
        home(place.turn),
        &mut place.table,
        place.next,
        page,
        first,
        words,
    )?;
    place.next += 1;
    place.ready = true;
    Ok(())
}

/// Takes a step of the move if one is due, and puts a record into the next slot. At every exit all words of the run are
/// old, or all are new.
fn write_once<F: Flash>(
    flash: &mut F,
    place: &mut PageMap<F::Table>,
    kept: &mut bool,
    page: u16,
    first: u8,
    words: &[u32],
) -> Result<(), DeviceErr>
    requires lit { (F.state flash.old).dark ≡ false }
    requires log { IsLog F.Table.entries F.PAGES F.SLOTS F.SECTORS F.sector_start (F.state flash.old).words place.old }
    requires page { page < F.PAGES }
    requires run { first + length words.now ≤ 16 }
    ensures whole { (words_of F.PAGES F.SLOTS (F.state flash.new).words
        ≡ words_of F.PAGES F.SLOTS (F.state flash.old).words)
        ⊎ (words_of F.PAGES F.SLOTS (F.state flash.new).words
        ≡ written (words_of F.PAGES F.SLOTS (F.state flash.old).words) (16 * page + first) words.now) }
    ensures done { OnOk result (words_of F.PAGES F.SLOTS (F.state flash.new).words
        ≡ written (words_of F.PAGES F.SLOTS (F.state flash.old).words) (16 * page + first) words.now) }
    ensures log { IsLog F.Table.entries F.PAGES F.SLOTS F.SECTORS F.sector_start (F.state flash.new).words place.new }
    ensures ready { OnOk result (place.new.ready ≡ true) }
    ensures unready { OnErr result (place.new.ready ≡ false) }
    ensures light { Tries 1 (F.state flash.old) (F.state flash.new) result }
    ensures work { Costs (2 * F.PAGES + 40 + F.SECTORS) 2 (F.state flash.old) (F.state flash.new) }
    // The program of a record that failed leaves two for its next try.
    ensures again { IsErrOf result DeviceErr.Fault → Costs (2 * F.PAGES + 38 + F.SECTORS) 2 (F.state flash.old)
        (F.state flash.new) }
    ensures brief { IsErrOf result DeviceErr.Fault → (extra : ℕ)
        → IsRoomy F.PAGES F.SLOTS F.SECTORS (extra + failed_since (F.state flash.old) (F.state flash.new))
        → WillKeepPace F.PAGES F.SLOTS F.SECTORS F.sector_start (F.state flash.old).words extra place.old
        → IsBrief 35 2 (F.state flash.old) (F.state flash.new) }
    ensures pause { (extra : ℕ)
        → IsRoomy F.PAGES F.SLOTS F.SECTORS (extra + failed_since (F.state flash.old) (F.state flash.new))
        → Pauses 37 2 (F.state flash.old) (F.state flash.new)
        (WillKeepPace F.PAGES F.SLOTS F.SECTORS F.sector_start (F.state flash.old).words extra place.old)
        (KeepsPace F.PAGES F.SLOTS F.SECTORS (extra + failed_since (F.state flash.old) (F.state flash.new)) place.new)
        result }
    ensures calm { lead_of F.PAGES F.SECTORS < free_slots F.SLOTS place.old
        → (F.state flash.new).faults ≡ (F.state flash.old).faults
        → TakesSlot (F.state flash.old) (F.state flash.new) (place.old.copied ≡ 0) (free_slots F.SLOTS place.old)
        (free_slots F.SLOTS place.new) result }
    ensures slots { (n : ℕ) → n + lead_of F.PAGES F.SECTORS < F.SLOTS
        → WillTake F.SLOTS (log_value F.PAGES F.SLOTS F.SECTORS (F.state flash.old) place.old) n
        → TakesInTurn F.SLOTS n 1 (log_value F.PAGES F.SLOTS F.SECTORS (F.state flash.old) place.old)
        (log_value F.PAGES F.SLOTS F.SECTORS (F.state flash.new) place.new) }
    ensures once { (n : ℕ) → n + lead_of F.PAGES F.SECTORS < F.SLOTS
        → WillTake F.SLOTS (log_value F.PAGES F.SLOTS F.SECTORS (F.state flash.old) place.old) n
        → (F.state flash.new).faults ≤ (F.state flash.old).faults + 1 }
    // Behind a record that failed, all but the table is known still. In pace as many slots are left beside those of the
    // steps as before: the record took that of its step. Or more than those of all tries are left.
    ensures holds { IsErrOf result DeviceErr.Fault → kept.new ≡ true
        → KeepsPlace F.PAGES F.SLOTS F.SECTORS F.sector_start (F.state flash.new).words page place.new }
    ensures keeps { IsErrOf result DeviceErr.Fault → (extra : ℕ)
        → IsRoomy F.PAGES F.SLOTS F.SECTORS (extra + failed_since (F.state flash.old) (F.state flash.new))
        → WillKeepPace F.PAGES F.SLOTS F.SECTORS F.sector_start (F.state flash.old).words extra place.old
        → WillPace kept.new F.PAGES F.SLOTS F.SECTORS F.sector_start (F.state flash.new).words
        (extra + lost_since (F.state flash.old) (F.state flash.new)) place.new }
    ensures beside { IsErrOf result DeviceErr.Fault → kept.new ≡ true → (extra : ℕ)
        → IsRoomy F.PAGES F.SLOTS F.SECTORS (extra + failed_since (F.state flash.old) (F.state flash.new))
        → KeepsPace F.PAGES F.SLOTS F.SECTORS extra place.old
        → ((steps_left_of F.PAGES F.SECTORS place.new + 1 ≡ steps_left_of F.PAGES F.SECTORS place.old)
        × (place.new.tried ≡ place.old.next + 1))
        ⊎ (steps_left_of F.PAGES F.SECTORS place.new + place.new.tried + TRIES ≤ F.SLOTS) }
    // Without a try of the record no slot is passed over.
    ensures untried { IsErrOf result DeviceErr.Fault → kept.new ≡ false → (extra n : ℕ)
        → IsRoomy F.PAGES F.SLOTS F.SECTORS (extra + failed_since (F.state flash.old) (F.state flash.new))
        → WillKeepPace F.PAGES F.SLOTS F.SECTORS F.sector_start (F.state flash.old).words extra place.old
        → StaysInArea F.SLOTS (F.state flash.old).words (F.state flash.new).words
        → BeginsBy F.SLOTS (log_value F.PAGES F.SLOTS F.SECTORS (F.state flash.old) place.old) n
        → BeginsBy F.SLOTS (log_value F.PAGES F.SLOTS F.SECTORS (F.state flash.new) place.new) n }
    ensures steps { OnOk result ((extra : ℕ) → IsRoomy F.PAGES F.SLOTS F.SECTORS extra
        → (F.state flash.new).faults ≡ (F.state flash.old).faults
        → KeepsPace F.PAGES F.SLOTS F.SECTORS extra place.old → F.SLOTS ≤ place.old.next + lead_of F.PAGES F.SECTORS
        → StaysInArea F.SLOTS (F.state flash.old).words (F.state flash.new).words
        → steps_left_of F.PAGES F.SECTORS place.new + 1 ≤ steps_left_of F.PAGES F.SECTORS place.old) }
    ensures begins { (extra n : ℕ)
        → IsRoomy F.PAGES F.SLOTS F.SECTORS (extra + failed_since (F.state flash.old) (F.state flash.new))
        → WillKeepPace F.PAGES F.SLOTS F.SECTORS F.sector_start (F.state flash.old).words extra place.old
        → StaysInArea F.SLOTS (F.state flash.old).words (F.state flash.new).words
        → BeginsBy F.SLOTS (log_value F.PAGES F.SLOTS F.SECTORS (F.state flash.old) place.old) n
        → BeginsBy F.SLOTS (log_value F.PAGES F.SLOTS F.SECTORS (F.state flash.new) place.new) (n + 1) }
    ensures last { OnOk result (find (F.state flash.new).words
        (base_in F.SLOTS (turn_of F.SLOTS (F.state flash.new).words)) F.SLOTS page
        ≡ F.SLOTS - free_slots F.SLOTS place.new) }
    ensures regains { OnOk result ((extra : ℕ) → IsRoomy F.PAGES F.SLOTS F.SECTORS extra
        → (F.state flash.new).faults ≡ (F.state flash.old).faults
        → KeepsPace F.PAGES F.SLOTS F.SECTORS extra place.old
        → RegainsSlots F.PAGES F.SLOTS extra (free_slots F.SLOTS place.old) (free_slots F.SLOTS place.new)
        (extra_slots place.new)) }
    ensures regains_found { OnOk result ((extra : ℕ) → IsRoomy F.PAGES F.SLOTS F.SECTORS extra
        → (F.state flash.new).faults ≡ (F.state flash.old).faults
        → WillKeepPace F.PAGES F.SLOTS F.SECTORS F.sector_start (F.state flash.old).words extra place.old
        → (n : ℕ) → FindsFree F.SLOTS (F.state flash.old).words n
        → RegainsSlots F.PAGES F.SLOTS extra n (free_slots F.SLOTS place.new) (extra_slots place.new)) }
    ensures lost { (extra : ℕ) → IsRoomy F.PAGES F.SLOTS F.SECTORS extra
        → (F.state flash.new).faults ≡ (F.state flash.old).faults
        → WillKeepPace F.PAGES F.SLOTS F.SECTORS F.sector_start (F.state flash.old).words extra place.old
        → CopiesNoPageAt F.PAGES F.SLOTS F.SECTORS (F.state flash.old) place.old (F.state flash.new)
        → IsInPace F.PAGES F.SLOTS F.SECTORS F.sector_start (F.state flash.new).words extra }
    ensures stands { (extra : ℕ)
        → IsRoomy F.PAGES F.SLOTS F.SECTORS (extra + failed_since (F.state flash.old) (F.state flash.new))
        → WillKeepPace F.PAGES F.SLOTS F.SECTORS F.sector_start (F.state flash.old).words extra place.old
        → WillKeepPace F.PAGES F.SLOTS F.SECTORS F.sector_start (F.state flash.new).words
        (extra + lost_since (F.state flash.old) (F.state flash.new)) place.new }
{
    *kept = false;
    prepare(flash, place)?;
    *kept = goes_on::<F>(place);
    put_next(flash, place, page, first, words)
}

/// Finds the pages again behind a Fault, and puts the record into the next slot, if one is free beside those of the
/// steps that are left. It takes no step.
fn write_again<F: Flash>(
    flash: &mut F,
    place: &mut PageMap<F::Table>,
    kept: &mut bool,
    page: u16,
    first: u8,
    words: &[u32],
) -> Result<(), DeviceErr>
    requires lit { (F.state flash.old).dark ≡ false }
    requires log { IsLog F.Table.entries F.PAGES F.SLOTS F.SECTORS F.sector_start (F.state flash.old).words place.old }
    requires unready { place.old.ready ≡ false }
    requires page { page < F.PAGES }
    requires keeps { kept.old ≡ true
        → KeepsPlace F.PAGES F.SLOTS F.SECTORS F.sector_start (F.state flash.old).words page place.old }
    requires run { first + length words.now ≤ 16 }
    ensures whole { (words_of F.PAGES F.SLOTS (F.state flash.new).words
        ≡ words_of F.PAGES F.SLOTS (F.state flash.old).words)
        ⊎ (words_of F.PAGES F.SLOTS (F.state flash.new).words
        ≡ written (words_of F.PAGES F.SLOTS (F.state flash.old).words) (16 * page + first) words.now) }
    ensures done { OnOk result (words_of F.PAGES F.SLOTS (F.state flash.new).words
        ≡ written (words_of F.PAGES F.SLOTS (F.state flash.old).words) (16 * page + first) words.now) }
    ensures log { IsLog F.Table.entries F.PAGES F.SLOTS F.SECTORS F.sector_start (F.state flash.new).words place.new }
    ensures ready { OnOk result (place.new.ready ≡ true) }
    // The pages are known behind it only if it gave up.
    ensures gives_up { IsErrOf result DeviceErr.Fault → place.new.ready ≡ true
        → GivesUp F.PAGES F.SLOTS F.SECTORS F.sector_start page
        (log_value F.PAGES F.SLOTS F.SECTORS (F.state flash.new) place.new) }
    ensures failed_once { IsErrOf result DeviceErr.Fault → place.new.ready ≡ false
        → (F.state flash.old).faults + 1 ≤ (F.state flash.new).faults }
    // What is known stays known behind a Fault, and the log is in pace by it.
    ensures holds { IsErrOf result DeviceErr.Fault → place.new.ready ≡ false → kept.new ≡ true
        → KeepsPlace F.PAGES F.SLOTS F.SECTORS F.sector_start (F.state flash.new).words page place.new }
    ensures keeps { IsErrOf result DeviceErr.Fault → place.new.ready ≡ false → (extra : ℕ)
        → extra ≤ extra_of F.PAGES F.SLOTS F.SECTORS
        → WillPace kept.old F.PAGES F.SLOTS F.SECTORS F.sector_start (F.state flash.old).words extra place.old
        → WillPace kept.new F.PAGES F.SLOTS F.SECTORS F.sector_start (F.state flash.new).words extra place.new }
    // Where what is known leaves a slot, a Fault takes that slot, and the rest stays known. Or no slot is passed over.
    ensures beside { IsErrOf result DeviceErr.Fault → place.new.ready ≡ false → kept.old ≡ true
        → steps_left_of F.PAGES F.SECTORS place.old + place.old.tried < F.SLOTS
        → ((kept.new ≡ true) × (steps_left_of F.PAGES F.SECTORS place.new + place.new.tried
        ≡ steps_left_of F.PAGES F.SECTORS place.old + place.old.tried + 1))
        ⊎ ((n : ℕ) → BeginsBy F.SLOTS (log_value F.PAGES F.SLOTS F.SECTORS (F.state flash.old) place.old) n
        → BeginsBy F.SLOTS (log_value F.PAGES F.SLOTS F.SECTORS (F.state flash.new) place.new) n) }
    // The move that is known stays so while it leaves a slot: a try takes at most the next one. None is taken back.
    ensures known { IsErrOf result DeviceErr.Fault → place.new.ready ≡ false → kept.old ≡ true
        → steps_left_of F.PAGES F.SECTORS place.old + place.old.tried < F.SLOTS
        → (kept.new ≡ true) × ((steps_left_of F.PAGES F.SECTORS place.new ≡ steps_left_of F.PAGES F.SECTORS place.old)
        × (place.new.tried ≤ place.old.tried + 1)) }
    ensures tried { IsErrOf result DeviceErr.Fault → place.new.ready ≡ false → place.old.tried ≤ place.new.tried }
    ensures passed { IsErrOf result DeviceErr.Fault → place.new.ready ≡ true → place.old.tried ≤ place.new.next }
    // It gives up where the move that is found has no slot for it.
    ensures no_slot { IsErrOf result DeviceErr.Fault → place.new.ready ≡ true
        → (F.SLOTS ≤ steps_left_of F.PAGES F.SECTORS place.new + place.new.next)
        ⊎ HasOthersOlder F.PAGES F.SLOTS F.SECTORS F.sector_start (F.state flash.new).words page place.new.next }
    // By what is known, it gives up only where that leaves no slot. Else it has tried none.
    ensures full { IsErrOf result DeviceErr.Fault → place.new.ready ≡ true → kept.old ≡ true
        → F.SLOTS ≤ steps_left_of F.PAGES F.SECTORS place.old + place.old.tried }
    ensures untried { IsErrOf result DeviceErr.Fault → place.new.ready ≡ true → (n : ℕ)
        → BeginsBy F.SLOTS (log_value F.PAGES F.SLOTS F.SECTORS (F.state flash.old) place.old) n
        → BeginsBy F.SLOTS (log_value F.PAGES F.SLOTS F.SECTORS (F.state flash.new) place.new) n }
    ensures slotted { (n : ℕ) → n + move_steps_of F.PAGES F.SECTORS < F.SLOTS
        → WillTake F.SLOTS (log_value F.PAGES F.SLOTS F.SECTORS (F.state flash.old) place.old) n
        → IsErrOf result DeviceErr.Fault → place.new.ready ≡ false }
    // Without a slot it is a Fault too.
    ensures light { Tries 0 (F.state flash.old) (F.state flash.new) result }
    ensures once { (F.state flash.new).faults ≤ (F.state flash.old).faults + 1 }
    ensures tries { (n : ℕ) → n + move_steps_of F.PAGES F.SECTORS < F.SLOTS
        → WillTake F.SLOTS (log_value F.PAGES F.SLOTS F.SECTORS (F.state flash.old) place.old) n
        → Tries 1 (F.state flash.old) (F.state flash.new) result }
    ensures work { (F.state flash.new).operations ≤ (F.state flash.old).operations + 2 }
    ensures failed { IsErrOf result DeviceErr.Fault → Costs 0 2 (F.state flash.old) (F.state flash.new) }
    ensures erases { (F.state flash.new).erases ≡ (F.state flash.old).erases }
    ensures slots { (n : ℕ) → n + move_steps_of F.PAGES F.SECTORS < F.SLOTS
        → WillTake F.SLOTS (log_value F.PAGES F.SLOTS F.SECTORS (F.state flash.old) place.old) n
        → TakesInTurn F.SLOTS n 1 (log_value F.PAGES F.SLOTS F.SECTORS (F.state flash.old) place.old)
        (log_value F.PAGES F.SLOTS F.SECTORS (F.state flash.new) place.new) }
    ensures turn { turn_of F.SLOTS (F.state flash.new).words ≡ turn_of F.SLOTS (F.state flash.old).words }
    ensures begins { (extra n : ℕ) → extra ≤ extra_of F.PAGES F.SLOTS F.SECTORS
        → WillPace kept.old F.PAGES F.SLOTS F.SECTORS F.sector_start (F.state flash.old).words extra place.old
        → BeginsBy F.SLOTS (log_value F.PAGES F.SLOTS F.SECTORS (F.state flash.old) place.old) n
        → BeginsBy F.SLOTS (log_value F.PAGES F.SLOTS F.SECTORS (F.state flash.new) place.new) (n + 1) }
    ensures passes { IsErrOf result DeviceErr.Fault → (extra n : ℕ) → extra ≤ extra_of F.PAGES F.SLOTS F.SECTORS
        → WillPace kept.old F.PAGES F.SLOTS F.SECTORS F.sector_start (F.state flash.old).words extra place.old
        → BeginsBy F.SLOTS (log_value F.PAGES F.SLOTS F.SECTORS (F.state flash.old) place.old) n
        → BeginsBy F.SLOTS (log_value F.PAGES F.SLOTS F.SECTORS (F.state flash.new) place.new)
        (n + ((F.state flash.new).faults - (F.state flash.old).faults)) }
    ensures last { OnOk result (find (F.state flash.new).words
        (base_in F.SLOTS (turn_of F.SLOTS (F.state flash.new).words)) F.SLOTS page
        ≡ F.SLOTS - free_slots F.SLOTS place.new) }
    ensures stands { (extra : ℕ) → extra ≤ extra_of F.PAGES F.SLOTS F.SECTORS
        → WillPace kept.old F.PAGES F.SLOTS F.SECTORS F.sector_start (F.state flash.old).words extra place.old
        → WillKeepPace F.PAGES F.SLOTS F.SECTORS F.sector_start (F.state flash.new).words extra place.new }
{
    find_again(flash, place, kept, page)?;
    keep_own::<F>(place, page);
    if !has_slot::<F>(place, page) {
        return Err(DeviceErr::Fault);
    }
    *kept = true;
    put_next(flash, place, page, first, words)
}

/// Tries the record again, behind a try that failed. A Fault is returned if no slot is free beside those of the steps
/// that are left, or each try failed.
fn try_again<F: Flash>(
    flash: &mut F,
    place: &mut PageMap<F::Table>,
    kept: &mut bool,
    page: u16,
    first: u8,
    words: &[u32],
) -> Result<(), DeviceErr>
    requires lit { (F.state flash.old).dark ≡ false }
    requires log { IsLog F.Table.entries F.PAGES F.SLOTS F.SECTORS F.sector_start (F.state flash.old).words place.old }
    requires unready { place.old.ready ≡ false }
    requires page { page < F.PAGES }
    requires keeps { kept.old ≡ true
        → KeepsPlace F.PAGES F.SLOTS F.SECTORS F.sector_start (F.state flash.old).words page place.old }
    requires run { first + length words.now ≤ 16 }
    ensures whole { (words_of F.PAGES F.SLOTS (F.state flash.new).words
        ≡ words_of F.PAGES F.SLOTS (F.state flash.old).words)
        ⊎ (words_of F.PAGES F.SLOTS (F.state flash.new).words
        ≡ written (words_of F.PAGES F.SLOTS (F.state flash.old).words) (16 * page + first) words.now) }
    ensures done { OnOk result (words_of F.PAGES F.SLOTS (F.state flash.new).words
        ≡ written (words_of F.PAGES F.SLOTS (F.state flash.old).words) (16 * page + first) words.now) }
    ensures log { IsLog F.Table.entries F.PAGES F.SLOTS F.SECTORS F.sector_start (F.state flash.new).words place.new }
    ensures ready { OnOk result (place.new.ready ≡ true) }
    ensures light { Tries 0 (F.state flash.old) (F.state flash.new) result }
    ensures most { (F.state flash.new).faults + 1 ≤ (F.state flash.old).faults + TRIES }
    ensures tries { (n : ℕ) → n + lead_of F.PAGES F.SECTORS ≤ F.SLOTS
        → WillTake F.SLOTS (log_value F.PAGES F.SLOTS F.SECTORS (F.state flash.old) place.old) n
        → IsErrOf result DeviceErr.Fault → (F.state flash.old).faults + TRIES ≤ (F.state flash.new).faults + 1 }
    ensures gives_up { IsErrOf result DeviceErr.Fault
        → ((F.state flash.old).faults + TRIES ≤ (F.state flash.new).faults + 1)
        ⊎ GivesUp F.PAGES F.SLOTS F.SECTORS F.sector_start page
        (log_value F.PAGES F.SLOTS F.SECTORS (F.state flash.new) place.new) }
    // Where what is known leaves more slots than these, it met a Fault. It met more than these, or it passed over fewer
    // slots than it met Faults.
    ensures keeps_on { IsErrOf result DeviceErr.Fault → kept.old ≡ true → (extra k : ℕ) → k + 1 < TRIES
        → extra ≤ extra_of F.PAGES F.SLOTS F.SECTORS
        → WillPace kept.old F.PAGES F.SLOTS F.SECTORS F.sector_start (F.state flash.old).words extra place.old
        → steps_left_of F.PAGES F.SECTORS place.old + place.old.tried + k < F.SLOTS
        → ((F.state flash.old).faults < (F.state flash.new).faults)
        × MeetsMoreOrPassesFewer F.SLOTS k (log_value F.PAGES F.SLOTS F.SECTORS (F.state flash.old) place.old)
        (log_value F.PAGES F.SLOTS F.SECTORS (F.state flash.new) place.new) }
    // By what is known it gives up behind the last try, or it passed over all slots but those of the steps: each for a
    // Fault.
    ensures passes_on { IsErrOf result DeviceErr.Fault → kept.old ≡ true
        → ((F.state flash.old).faults + TRIES ≤ (F.state flash.new).faults + 1)
        ⊎ ((F.SLOTS ≤ steps_left_of F.PAGES F.SECTORS place.old
        + passed_slots F.SLOTS (log_value F.PAGES F.SLOTS F.SECTORS (F.state flash.new) place.new))
        × (F.SLOTS ≤ steps_left_of F.PAGES F.SECTORS place.old + place.old.tried
        + ((F.state flash.new).faults - (F.state flash.old).faults))) }
    // Whatever is known, it gives up behind the last try, or where the move that is found has no slot for it.
    ensures no_slot { IsErrOf result DeviceErr.Fault
        → ((F.state flash.old).faults + TRIES ≤ (F.state flash.new).faults + 1) ⊎ ((place.new.ready ≡ true)
        × ((F.SLOTS ≤ steps_left_of F.PAGES F.SECTORS place.new + place.new.next)
        ⊎ HasOthersOlder F.PAGES F.SLOTS F.SECTORS F.sector_start (F.state flash.new).words page place.new.next)) }
    ensures work { Costs 2 2 (F.state flash.old) (F.state flash.new) }
    ensures erases { (F.state flash.new).erases ≡ (F.state flash.old).erases }
    ensures slots { (n : ℕ) → n + lead_of F.PAGES F.SECTORS ≤ F.SLOTS
        → WillTake F.SLOTS (log_value F.PAGES F.SLOTS F.SECTORS (F.state flash.old) place.old) n
        → TakesInTurn F.SLOTS n (1 + ((F.state flash.new).faults - (F.state flash.old).faults))
        (log_value F.PAGES F.SLOTS F.SECTORS (F.state flash.old) place.old)
        (log_value F.PAGES F.SLOTS F.SECTORS (F.state flash.new) place.new) }
    ensures turn { turn_of F.SLOTS (F.state flash.new).words ≡ turn_of F.SLOTS (F.state flash.old).words }
    ensures begins { (extra n : ℕ) → extra ≤ extra_of F.PAGES F.SLOTS F.SECTORS
        → WillPace kept.old F.PAGES F.SLOTS F.SECTORS F.sector_start (F.state flash.old).words extra place.old
        → BeginsBy F.SLOTS (log_value F.PAGES F.SLOTS F.SECTORS (F.state flash.old) place.old) n
        → BeginsBy F.SLOTS (log_value F.PAGES F.SLOTS F.SECTORS (F.state flash.new) place.new)
        (n + 1 + ((F.state flash.new).faults - (F.state flash.old).faults)) }
    ensures passes { IsErrOf result DeviceErr.Fault → (extra n : ℕ) → extra ≤ extra_of F.PAGES F.SLOTS F.SECTORS
        → WillPace kept.old F.PAGES F.SLOTS F.SECTORS F.sector_start (F.state flash.old).words extra place.old
        → BeginsBy F.SLOTS (log_value F.PAGES F.SLOTS F.SECTORS (F.state flash.old) place.old) n
        → BeginsBy F.SLOTS (log_value F.PAGES F.SLOTS F.SECTORS (F.state flash.new) place.new)
        (n + ((F.state flash.new).faults - (F.state flash.old).faults)) }
    ensures last { OnOk result (find (F.state flash.new).words
        (base_in F.SLOTS (turn_of F.SLOTS (F.state flash.new).words)) F.SLOTS page
        ≡ F.SLOTS - free_slots F.SLOTS place.new) }
    ensures stands { (extra : ℕ) → extra ≤ extra_of F.PAGES F.SLOTS F.SECTORS
        → WillPace kept.old F.PAGES F.SLOTS F.SECTORS F.sector_start (F.state flash.old).words extra place.old
        → WillKeepPace F.PAGES F.SLOTS F.SECTORS F.sector_start (F.state flash.new).words extra place.new }
{
    for _ in 1..TRIES {
        match write_again(flash, place, kept, page, first, words) {
            Ok(()) => return Ok(()),
            Err(DeviceErr::PowerLost) => return Err(DeviceErr::PowerLost),
            Err(DeviceErr::Fault) => {}
        }
        // The pages are known: the record had no slot.
        if place.ready {
            return Err(DeviceErr::Fault);
        }
    }
    Err(DeviceErr::Fault)
}

/// Writes a run of a page. At every exit all words of the run are old, or all are new. If a step of a move is due it is
/// taken once. The record is tried as long as a slot is free beside those of the steps, each time in the next one.
pub fn write_at<F: Flash>(
    flash: &mut F,
    place: &mut PageMap<F::Table>,
    page: u16,
    first: u8,
    words: &[u32],
) -> Result<(), DeviceErr>
    requires lit { (F.state flash.old).dark ≡ false }
    requires log { IsLog F.Table.entries F.PAGES F.SLOTS F.SECTORS F.sector_start (F.state flash.old).words place.old }
    requires page { page < F.PAGES }
    requires run { first + length words.now ≤ 16 }
    ensures whole { (words_of F.PAGES F.SLOTS (F.state flash.new).words
        ≡ words_of F.PAGES F.SLOTS (F.state flash.old).words)
        ⊎ (words_of F.PAGES F.SLOTS (F.state flash.new).words
        ≡ written (words_of F.PAGES F.SLOTS (F.state flash.old).words) (16 * page + first) words.now) }
    ensures done { OnOk result (words_of F.PAGES F.SLOTS (F.state flash.new).words
        ≡ written (words_of F.PAGES F.SLOTS (F.state flash.old).words) (16 * page + first) words.now) }
    ensures log { IsLog F.Table.entries F.PAGES F.SLOTS F.SECTORS F.sector_start (F.state flash.new).words place.new }
    ensures ready { OnOk result (place.new.ready ≡ true) }
    ensures light { Tries 1 (F.state flash.old) (F.state flash.new) result }
    ensures keeps_trying { (n : ℕ) → n + lead_of F.PAGES F.SECTORS < F.SLOTS
        → WillTake F.SLOTS (log_value F.PAGES F.SLOTS F.SECTORS (F.state flash.old) place.old) n
        → Tries TRIES (F.state flash.old) (F.state flash.new) result }
    // It may give up before where a move needs all slots that are left, or another page's copy is older.
    ensures gives_up { IsErrOf result DeviceErr.Fault
        → ((F.state flash.old).faults + TRIES ≤ (F.state flash.new).faults)
        ⊎ GivesUp F.PAGES F.SLOTS F.SECTORS F.sector_start page
        (log_value F.PAGES F.SLOTS F.SECTORS (F.state flash.new) place.new) }
    // In pace, with so many slots beside those of the steps, fewer than eight, it gives up only behind more Faults than
    // these, or where it passed over fewer slots than it met Faults: one of them was no failed slot. Each try met a
    // Fault, or it passed over more slots than these, or its step isn't taken. Or the pages moved.
    ensures keeps_on { IsErrOf result DeviceErr.Fault → (extra k : ℕ) → k < TRIES
        → IsRoomy F.PAGES F.SLOTS F.SECTORS (extra + failed_since (F.state flash.old) (F.state flash.new))
        → KeepsPace F.PAGES F.SLOTS F.SECTORS extra place.old
        → steps_left_of F.PAGES F.SECTORS place.old + place.old.next + k ≤ F.SLOTS
        → StaysInArea F.SLOTS (F.state flash.old).words (F.state flash.new).words
        → TriesOn F.PAGES F.SLOTS F.SECTORS F.sector_start page k
        (log_value F.PAGES F.SLOTS F.SECTORS (F.state flash.old) place.old)
        (log_value F.PAGES F.SLOTS F.SECTORS (F.state flash.new) place.new) }
    ensures work { Costs (2 * F.PAGES + 40 + F.SECTORS) 2 (F.state flash.old) (F.state flash.new) }
    ensures pause { (extra : ℕ)
        → IsRoomy F.PAGES F.SLOTS F.SECTORS (extra + failed_since (F.state flash.old) (F.state flash.new))
        → Pauses 37 2 (F.state flash.old) (F.state flash.new)
        (WillKeepPace F.PAGES F.SLOTS F.SECTORS F.sector_start (F.state flash.old).words extra place.old)
        (KeepsPace F.PAGES F.SLOTS F.SECTORS (extra + failed_since (F.state flash.old) (F.state flash.new)) place.new)
        result }
    ensures calm { lead_of F.PAGES F.SECTORS < free_slots F.SLOTS place.old
        → (F.state flash.new).faults ≡ (F.state flash.old).faults
        → TakesSlot (F.state flash.old) (F.state flash.new) (place.old.copied ≡ 0) (free_slots F.SLOTS place.old)
        (free_slots F.SLOTS place.new) result }
    ensures slots { (n : ℕ)
        → n + lead_of F.PAGES F.SECTORS + ((F.state flash.new).faults - (F.state flash.old).faults) < F.SLOTS
        → WillTake F.SLOTS (log_value F.PAGES F.SLOTS F.SECTORS (F.state flash.old) place.old) n
        → TakesInTurn F.SLOTS n (1 + ((F.state flash.new).faults - (F.state flash.old).faults))
        (log_value F.PAGES F.SLOTS F.SECTORS (F.state flash.old) place.old)
        (log_value F.PAGES F.SLOTS F.SECTORS (F.state flash.new) place.new) }
    ensures steps { OnOk result ((extra : ℕ) → IsRoomy F.PAGES F.SLOTS F.SECTORS extra
        → (F.state flash.new).faults ≡ (F.state flash.old).faults
        → KeepsPace F.PAGES F.SLOTS F.SECTORS extra place.old → F.SLOTS ≤ place.old.next + lead_of F.PAGES F.SECTORS
        → StaysInArea F.SLOTS (F.state flash.old).words (F.state flash.new).words
        → steps_left_of F.PAGES F.SECTORS place.new + 1 ≤ steps_left_of F.PAGES F.SECTORS place.old) }
    // In pace each try passes over one slot at most, unless the pages move to the other area.
    ensures begins { (extra n : ℕ)
        → IsRoomy F.PAGES F.SLOTS F.SECTORS (extra + failed_since (F.state flash.old) (F.state flash.new))
        → WillKeepPace F.PAGES F.SLOTS F.SECTORS F.sector_start (F.state flash.old).words extra place.old
        → StaysInArea F.SLOTS (F.state flash.old).words (F.state flash.new).words
        → BeginsBy F.SLOTS (log_value F.PAGES F.SLOTS F.SECTORS (F.state flash.old) place.old) n
        → BeginsBy F.SLOTS (log_value F.PAGES F.SLOTS F.SECTORS (F.state flash.new) place.new)
        (n + 1 + ((F.state flash.new).faults - (F.state flash.old).faults)) }
    ensures passes { IsErrOf result DeviceErr.Fault → (extra n : ℕ)
        → IsRoomy F.PAGES F.SLOTS F.SECTORS (extra + failed_since (F.state flash.old) (F.state flash.new))
        → WillKeepPace F.PAGES F.SLOTS F.SECTORS F.sector_start (F.state flash.old).words extra place.old
        → StaysInArea F.SLOTS (F.state flash.old).words (F.state flash.new).words
        → BeginsBy F.SLOTS (log_value F.PAGES F.SLOTS F.SECTORS (F.state flash.old) place.old) n
        → BeginsBy F.SLOTS (log_value F.PAGES F.SLOTS F.SECTORS (F.state flash.new) place.new)
        (n + ((F.state flash.new).faults - (F.state flash.old).faults)) }
    ensures tries { (n : ℕ) → n + lead_of F.PAGES F.SECTORS + TRIES ≤ F.SLOTS
        → WillTake F.SLOTS (log_value F.PAGES F.SLOTS F.SECTORS (F.state flash.old) place.old) n
        → (F.state flash.new).faults ≤ (F.state flash.old).faults + TRIES }
    ensures last { OnOk result (find (F.state flash.new).words
        (base_in F.SLOTS (turn_of F.SLOTS (F.state flash.new).words)) F.SLOTS page
        ≡ F.SLOTS - free_slots F.SLOTS place.new) }
    ensures regains { OnOk result ((extra : ℕ) → IsRoomy F.PAGES F.SLOTS F.SECTORS extra
        → (F.state flash.new).faults ≡ (F.state flash.old).faults
        → KeepsPace F.PAGES F.SLOTS F.SECTORS extra place.old
        → RegainsSlots F.PAGES F.SLOTS extra (free_slots F.SLOTS place.old) (free_slots F.SLOTS place.new)
        (extra_slots place.new)) }
    ensures regains_found { OnOk result ((extra : ℕ) → IsRoomy F.PAGES F.SLOTS F.SECTORS extra
        → (F.state flash.new).faults ≡ (F.state flash.old).faults
        → WillKeepPace F.PAGES F.SLOTS F.SECTORS F.sector_start (F.state flash.old).words extra place.old
        → (n : ℕ) → FindsFree F.SLOTS (F.state flash.old).words n
        → RegainsSlots F.PAGES F.SLOTS extra n (free_slots F.SLOTS place.new) (extra_slots place.new)) }
    ensures lost { (extra : ℕ) → IsRoomy F.PAGES F.SLOTS F.SECTORS extra
        → (F.state flash.new).faults ≡ (F.state flash.old).faults
        → WillKeepPace F.PAGES F.SLOTS F.SECTORS F.sector_start (F.state flash.old).words extra place.old
        → CopiesNoPageAt F.PAGES F.SLOTS F.SECTORS (F.state flash.old) place.old (F.state flash.new)
        → IsInPace F.PAGES F.SLOTS F.SECTORS F.sector_start (F.state flash.new).words extra }
    ensures stands { (extra : ℕ)
        → IsRoomy F.PAGES F.SLOTS F.SECTORS (extra + failed_since (F.state flash.old) (F.state flash.new))
        → WillKeepPace F.PAGES F.SLOTS F.SECTORS F.sector_start (F.state flash.old).words extra place.old
        → WillKeepPace F.PAGES F.SLOTS F.SECTORS F.sector_start (F.state flash.new).words
        (extra + lost_since (F.state flash.old) (F.state flash.new)) place.new }
{
    let mut kept = false;
    match write_once(flash, place, &mut kept, page, first, words) {
        Ok(()) => return Ok(()),
        Err(DeviceErr::PowerLost) => return Err(DeviceErr::PowerLost),
        Err(DeviceErr::Fault) => {}
    }
    try_again(flash, place, &mut kept, page, first, words)
}

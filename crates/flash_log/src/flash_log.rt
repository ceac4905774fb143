//! The log of a flash as one value: the words that it stands for, and its power.
ghost use Rattle.std.specs.Prelude.{◌≡◌, ◌⊎◌, ◌<◌, ◌≤◌, ◌+◌, ◌-◌, ◌*◌, ℕ, true, false, length, slice_index};
ghost use Rattle.std.specs.Prelude.{IfOk, IfErr, IsErrOf, OnOk};
ghost use Rattle.nvm_board.specs.declared.board.DeviceErr.TheVariants as DeviceErr;
ghost use Rattle.nvm_board.specs.Facts.{AreWords, IsMemory};
ghost use Rattle.nvm_board.specs.History.{written};
ghost use Rattle.flash_device.specs.FlashCalls.{Costs, Lights, Tries};
ghost use Rattle.flash_moves.specs.Paces.{CopiesNoPage, HasFreeSlots, IsRoomy, Pauses, RegainsSlots, RenewsOnly};
ghost use Rattle.flash_moves.specs.Paces.{TakesSlot};
ghost use Rattle.flash_moves.specs.Paces.{extra_of, failed_since, lead_of, lost_since, move_steps_of};
ghost use Rattle.flash_log.specs.Renewals.{HoldsOnlyPages};
ghost use Rattle.flash_moves.specs.declared.ahead.TheConstants.{TRIES};

use crate::renewal::renew_pages;
use crate::steps::read_at;
use crate::tries::write_at;
use flash_device::{CutFlash, Flash, FlashSocket, FollowedFlash, PageTable};
use flash_moves::{PageMap, has_ring};
use nvm_board::DeviceErr;
use std::marker::Model;

/// The reason why a flash isn't taken.
#[derive(Clone, Copy, Debug, PartialEq, Eq)]
pub enum FlashFault {
    /// No log is on it.
    NoLog,
    /// Power was lost.
    PowerLost,
    /// The flash failed.
    Fault,
}

/// A flash, and where its pages are.
#[derive(Drop)]
pub struct FlashLog<F: Flash> {
    flash: F,
    place: PageMap<F::Table>,
}

impl<F: Flash> Model for FlashLog<F> {
    ghost use Rattle.flash_moves.specs.Paces.{LogState};
    ghost use Rattle.flash_moves.specs.Places.{IsLog, log_value};

    ghost Value = { LogState };

    ghost view = { λ l. log_value F.PAGES F.SLOTS F.SECTORS (F.state l.flash) l.place };

    ghost invariant = { λ l. IsLog F.Table.entries F.PAGES F.SLOTS F.SECTORS F.sector_start (F.state l.flash).words
        l.place };
}

impl<F: Flash> FlashLog<F> {
    ghost use Rattle.flash_log.specs.Openings.{OpenStopsBy};
    ghost use Rattle.flash_moves.specs.Places.{FindsFree, new_log, state_of};
    ghost use Rattle.flash_device.specs.FlashLogs.{base_in, find, turn_of};
    ghost use Rattle.flash_device.specs.PageTables.{AreFree};
    ghost use Rattle.flash_moves.specs.Paces.{IsInPace, StandsInPace, StaysInArea};
    ghost use Rattle.flash_moves.specs.Rings.{IsRing};
    ghost use Rattle.flash_log.specs.SlotsInTurn.{BeginsBy, GivesUp, SameNext, TakesInTurn, TriesOn, WillTake};
    ghost use Rattle.flash_log.specs.StepsLeft.{HasFewestLeft, ShowsLeft};

    /// The log of a flash that has one.
    pub fn new(flash: F) -> FlashLog<F>
        requires { IsRing F.SLOTS (F.state flash).words }
        ensures is { result ≡ new_log F.PAGES F.SLOTS (F.state flash) }
    {
        FlashLog {
            flash,
            place: PageMap {
                ready: false,
                table: F::Table::blank(),
                turn: 0,
                next: 0,
                tried: 0,
                erased: 0,
                copied: 0,
                behind: 0,
                older: 0,
            },
        }
    }

    /// The log of a flash, if it has one.
    ///
    /// # Errors
    /// The flash has no log, power was lost, or the flash failed.
    pub fn open(flash: F) -> Result<FlashLog<F>, (F, FlashFault)>
        requires { (F.state flash).dark ≡ false }
        ensures log { IfOk result (λ l. l ≡ new_log F.PAGES F.SLOTS (F.state flash)) }
        ensures has_log { IfOk result (λ _. IsRing F.SLOTS (F.state flash).words) }
        ensures stopped { IfErr result (λ e. OpenStopsBy F.SLOTS e.1 (F.state flash) (F.state e.0)) }
        ensures work { IfErr result (λ e. ((F.state e.0).operations ≡ (F.state flash).operations)
            × ((F.state e.0).erases ≡ (F.state flash).erases)) }
    {
        let mut flash = flash;
        match has_ring(&mut flash) {
            Ok(true) => Ok(FlashLog::new(flash)),
            Ok(false) => Err((flash, FlashFault::NoLog)),
            Err(DeviceErr::PowerLost) => Err((flash, FlashFault::PowerLost)),
            Err(DeviceErr::Fault) => Err((flash, FlashFault::Fault)),
        }
    }

    /// Gives the flash back, of which a log can be made again.
    pub fn into_flash(self) -> F
        ensures is { state_of F.PAGES F.SLOTS (F.state result) ≡ self.flash }
        ensures ring { IsRing F.SLOTS (F.state result).words }
        ensures raw { (F.state result).words ≡ self.raw }
    {
        let FlashLog { flash, place: _ } = self;
        flash
    }

    /// Proves that the words are those of a board, 16 a page, and have 32 bits.
    pub fn words_fit(&self)
        ensures size { length self.now.flash.words ≡ 16 * F.PAGES }
        ensures memory { IsMemory self.now.flash.words }
        ensures fit { AreWords self.now.flash.words }
    {
        let _ = &self.flash;
    }

    /// Proves that the free slots that the log knows are blank.
    pub fn has_free(&self)
        ensures blank { 0 < self.now.free → AreFree self.now.raw (base_in F.SLOTS (turn_of F.SLOTS self.now.raw))
            (F.SLOTS - self.now.free) F.SLOTS }
        // In pace the next write takes the first of them.
        ensures next { self.now.paced ≡ true → 0 < self.now.free
            → WillTake F.SLOTS self.now (F.SLOTS - self.now.free) }
        // None of them was tried.
        ensures passed { self.now.tried + self.now.free ≤ F.SLOTS }
        // A log that knows its pages knows a progress of the move that the flash shows.
        ensures shows { self.now.ready ≡ true
            → ShowsLeft F.PAGES F.SLOTS F.SECTORS F.sector_start self.now.raw self.now.left }
    {
        let _ = &self.flash;
    }

    /// Proves that a log in pace will be in pace again behind any power-on: the flash holds all that it has to find.
    pub fn stays_in_pace(&self)
        ensures pace { (extra : ℕ) → StandsInPace F.PAGES F.SLOTS F.SECTORS F.sector_start extra self.now
            → IsInPace F.PAGES F.SLOTS F.SECTORS F.sector_start self.now.raw extra }
        // A log that has yet to look for its pages has tried no slot.
        ensures fresh { self.now.fresh ≡ true → (self.now.ready ≡ false) × (self.now.tried ≡ 0) }
    {
        let _ = &self.flash;
    }

    /// Proves that slots that power losses and Faults took don't count behind the move.
    pub fn forgets_losses(&self)
        ensures { self.now.paced ≡ true → lead_of F.PAGES F.SECTORS < self.now.free → self.now.extra ≡ 0 }
    {
        let _ = &self.flash;
    }

    /// Reads a word.
    pub fn read(&mut self, at: u16) -> Result<u32, DeviceErr>
        requires lit { self.old.flash.dark ≡ false }
        requires at { at < 16 * F.PAGES }
        ensures word { IfOk result (λ w. w ≡ slice_index self.old.flash.words at) }
        ensures words { self.new.flash.words ≡ self.old.flash.words }
        ensures work { self.new.flash.operations ≡ self.old.flash.operations }
        ensures erases { self.new.flash.erases ≡ self.old.flash.erases }
        ensures light { Lights self.old.flash self.new.flash result }
        ensures paced { self.old.paced ≡ true → (self.new.paced ≡ true) × (self.new.extra ≡ self.old.extra) }
        ensures free { self.old.free ≤ self.new.free }
        // After the first read behind a power-on, the log knows all free slots.
        ensures found { OnOk result (self.old.fresh ≡ true → FindsFree F.SLOTS self.old.raw self.new.free) }
        // If it fails before it knows them, the next read looks for them.
        ensures looks { self.old.fresh ≡ true
            → (self.new.fresh ≡ true) ⊎ FindsFree F.SLOTS self.old.raw self.new.free }
        // With more free slots than a move begins at, no move is under way.
        ensures in_pace { self.old.ready ≡ false
            → lead_of F.PAGES F.SECTORS < self.new.free → (self.new.paced ≡ true) × (self.new.extra ≡ 0) }
        // Else what it finds is in pace, as long as the flash was and has the slots for its losses.
        ensures finds { OnOk result ((extra : ℕ) → extra ≤ extra_of F.PAGES F.SLOTS F.SECTORS
            → StandsInPace F.PAGES F.SLOTS F.SECTORS F.sector_start extra self.old
            → (self.new.paced ≡ true) × (self.new.extra ≤ extra)) }
        ensures stands { (extra : ℕ) → extra ≤ extra_of F.PAGES F.SLOTS F.SECTORS
            → StandsInPace F.PAGES F.SLOTS F.SECTORS F.sector_start extra self.old
            → StandsInPace F.PAGES F.SLOTS F.SECTORS F.sector_start extra self.new }
        // Where a move is due, no more steps are left than by each that goes on or begins anew.
        ensures fewest { self.old.ready ≡ false → self.new.ready ≡ true → self.new.free ≤ lead_of F.PAGES F.SECTORS
            → HasFewestLeft F.PAGES F.SLOTS F.SECTORS F.sector_start self.old.raw (F.SLOTS - self.new.free)
            self.new.left }
        // What contracts know of it stays if it knew its pages, or still has to find them. Behind Ok it knows them.
        ensures known { self.old.ready ≡ true → self.new ≡ record self.old { flash = self.new.flash } }
        ensures waits { self.new.ready ≡ false → self.new ≡ record self.old { flash = self.new.flash } }
        ensures ready { OnOk result (self.new.ready ≡ true) }
        // No slot is passed over, and until power-on none is taken again.
        ensures same_next { SameNext F.SLOTS self.old self.new }
        ensures tried { self.new.tried ≡ self.old.tried }
        ensures raw { self.new.raw ≡ self.old.raw }
    {
        read_at(&mut self.flash, &mut self.place, at)
    }

    /// Writes a run of a page. At every exit all words of the run are old, or all are new.
    pub fn write(&mut self, page: u16, first: u8, words: &[u32]) -> Result<(), DeviceErr>
        requires lit { self.old.flash.dark ≡ false }
        requires page { page < F.PAGES }
        requires run { first + length words.now ≤ 16 }
        ensures whole { (self.new.flash.words ≡ self.old.flash.words)
            ⊎ (self.new.flash.words ≡ written self.old.flash.words (16 * page + first) words.now) }
        ensures done { OnOk result (self.new.flash.words
            ≡ written self.old.flash.words (16 * page + first) words.now) }
        ensures light { Tries 1 self.old.flash self.new.flash result }
        // With the slots outside a move it gives up only after as many Faults as a record has tries.
        ensures keeps_trying { (n : ℕ) → n + lead_of F.PAGES F.SECTORS < F.SLOTS → WillTake F.SLOTS self.old n
            → Tries TRIES self.old.flash self.new.flash result }
        // It may give up before that only where a move that goes on, by what the flash shows, or begins anew needs all
        // slots that are left for its steps, or a copy of another page is older.
        ensures gives_up { IsErrOf result DeviceErr.Fault → (self.old.flash.faults + TRIES ≤ self.new.flash.faults)
            ⊎ GivesUp F.PAGES F.SLOTS F.SECTORS F.sector_start page self.new }
        ensures work { Costs (2 * F.PAGES + 40 + F.SECTORS) 2 self.old.flash self.new.flash }
        // In pace a write begins at most 37 programs and erases, whatever else it comes to, and two more for each Fault
        // of the flash. However often that fails, at most one of them is an erase.
        ensures pause { (extra : ℕ)
            → IsRoomy F.PAGES F.SLOTS F.SECTORS (extra + failed_since self.old.flash self.new.flash)
            → Pauses 37 2 self.old.flash self.new.flash
            (StandsInPace F.PAGES F.SLOTS F.SECTORS F.sector_start extra self.old)
            ((self.new.paced ≡ true) × (self.new.extra ≤ extra + failed_since self.old.flash self.new.flash)) result }
        // While more free slots are known than a move begins at, and the flash doesn't fail, it takes one of them, and
        // erases nothing.
        ensures calm { lead_of F.PAGES F.SECTORS < self.old.free
            → self.new.flash.faults ≡ self.old.flash.faults
            → TakesSlot self.old.flash self.new.flash (self.old.paced ≡ true) self.old.free self.new.free result }
        // As long as no step of a move is due, the tries take the next slots: at most one, and one for each Fault.
        ensures slots { (n : ℕ)
            → n + lead_of F.PAGES F.SECTORS + (self.new.flash.faults - self.old.flash.faults) < F.SLOTS
            → WillTake F.SLOTS self.old n
            → TakesInTurn F.SLOTS n (1 + (self.new.flash.faults - self.old.flash.faults)) self.old self.new }
        // In pace, while pages don't move, a due step is taken: no slot of the tries goes to one that is left out.
        ensures steps { OnOk result ((extra : ℕ) → IsRoomy F.PAGES F.SLOTS F.SECTORS extra
            → self.new.flash.faults ≡ self.old.flash.faults → self.old.paced ≡ true → self.old.extra ≤ extra
            → self.old.free ≤ lead_of F.PAGES F.SECTORS → StaysInArea F.SLOTS self.old.raw self.new.raw
            → self.new.left + 1 ≤ self.old.left) }
        // In pace the next write begins at most one slot later, and one for each Fault, unless the pages move to the
        // other area.
        ensures begins { (extra n : ℕ)
            → IsRoomy F.PAGES F.SLOTS F.SECTORS (extra + failed_since self.old.flash self.new.flash)
            → StandsInPace F.PAGES F.SLOTS F.SECTORS F.sector_start extra self.old
            → StaysInArea F.SLOTS self.old.raw self.new.raw → BeginsBy F.SLOTS self.old n
            → BeginsBy F.SLOTS self.new (n + 1 + (self.new.flash.faults - self.old.flash.faults)) }
        // One that returns a Fault passed over no slot but those of Faults.
        ensures passes { IsErrOf result DeviceErr.Fault → (extra n : ℕ)
            → IsRoomy F.PAGES F.SLOTS F.SECTORS (extra + failed_since self.old.flash self.new.flash)
            → StandsInPace F.PAGES F.SLOTS F.SECTORS F.sector_start extra self.old
            → StaysInArea F.SLOTS self.old.raw self.new.raw → BeginsBy F.SLOTS self.old n
            → BeginsBy F.SLOTS self.new (n + (self.new.flash.faults - self.old.flash.faults)) }
        // In pace, with so many slots beside those of the steps, fewer than eight, it gives up only behind more Faults
        // than these, or where it passed over fewer slots than it met Faults: one of them was no failed slot. Each try
        // met a Fault, or it passed over more slots than these, or its step isn't taken. Or the pages moved.
        ensures keeps_on { IsErrOf result DeviceErr.Fault → (extra k : ℕ) → k < TRIES
            → IsRoomy F.PAGES F.SLOTS F.SECTORS (extra + failed_since self.old.flash self.new.flash)
            → self.old.paced ≡ true → self.old.extra ≤ extra → self.old.left + k ≤ self.old.free
            → StaysInArea F.SLOTS self.old.raw self.new.raw
            → TriesOn F.PAGES F.SLOTS F.SECTORS F.sector_start page k self.old self.new }
        // With the slots for all tries each meets one Fault at most.
        ensures tries { (n : ℕ) → n + lead_of F.PAGES F.SECTORS + TRIES ≤ F.SLOTS → WillTake F.SLOTS self.old n
            → self.new.flash.faults ≤ self.old.flash.faults + TRIES }
        // The record is in the last slot that isn't free.
        ensures last { OnOk result (find self.new.raw (base_in F.SLOTS (turn_of F.SLOTS self.new.raw)) F.SLOTS page
            ≡ F.SLOTS - self.new.free) }
        // A move in pace leaves all slots free but one for each page and each step, and those of power losses.
        ensures regains { OnOk result ((extra : ℕ) → IsRoomy F.PAGES F.SLOTS F.SECTORS extra
            → self.new.flash.faults ≡ self.old.flash.faults → self.old.paced ≡ true → self.old.extra ≤ extra
            → RegainsSlots F.PAGES F.SLOTS extra self.old.free self.new.free self.new.extra) }
        // Behind a power-on too: more than the slots that were free before.
        ensures regains_found { OnOk result ((extra : ℕ) → IsRoomy F.PAGES F.SLOTS F.SECTORS extra
            → self.new.flash.faults ≡ self.old.flash.faults
            → StandsInPace F.PAGES F.SLOTS F.SECTORS F.sector_start extra self.old
            → (n : ℕ) → FindsFree F.SLOTS self.old.raw n
            → RegainsSlots F.PAGES F.SLOTS extra n self.new.free self.new.extra) }
        // A write that copies no page leaves the flash in pace at every exit, also if it loses power.
        ensures lost { (extra : ℕ) → IsRoomy F.PAGES F.SLOTS F.SECTORS extra
            → self.new.flash.faults ≡ self.old.flash.faults
            → StandsInPace F.PAGES F.SLOTS F.SECTORS F.sector_start extra self.old
            → CopiesNoPage F.PAGES F.SLOTS F.SECTORS self.old self.new
            → IsInPace F.PAGES F.SLOTS F.SECTORS F.sector_start self.new.raw extra }
        // Every write leaves it so, but a power loss and each Fault may take more slots of the other area.
        ensures stands { (extra : ℕ)
            → IsRoomy F.PAGES F.SLOTS F.SECTORS (extra + failed_since self.old.flash self.new.flash)
            → StandsInPace F.PAGES F.SLOTS F.SECTORS F.sector_start extra self.old
            → StandsInPace F.PAGES F.SLOTS F.SECTORS F.sector_start
            (extra + lost_since self.old.flash self.new.flash) self.new }
    {
        write_at(&mut self.flash, &mut self.place, page, first, words)
    }

    /// Leaves nothing in the flash but the pages as they are: no old words of a page, in no slot. At every exit the
    /// words of the board are the same. After an error it is to be called again.
    pub fn renew(&mut self) -> Result<(), DeviceErr>
        requires { self.old.flash.dark ≡ false }
        ensures words { self.new.flash.words ≡ self.old.flash.words }
        ensures only { OnOk result (HoldsOnlyPages F.PAGES F.SLOTS self.new.raw) }
        ensures paced { OnOk result (IsRoomy F.PAGES F.SLOTS F.SECTORS 0
            → self.new.flash.faults ≤ self.old.flash.faults + lead_of F.PAGES F.SECTORS
            → (self.new.paced ≡ true) × (self.new.extra ≡ 0)) }
        // All slots but one for each page, and one for each Fault, are free.
        ensures free { OnOk result (F.SLOTS + self.old.flash.faults
            ≤ self.new.free + F.PAGES + self.new.flash.faults) }
        // With the slots for a move it leaves these, and the flash in pace, at every exit, also if it loses power.
        ensures lost { F.PAGES + (self.new.flash.faults - self.old.flash.faults) + lead_of F.PAGES F.SECTORS ≤ F.SLOTS
            → HasFreeSlots F.SLOTS (lead_of F.PAGES F.SECTORS) self.old.raw
            → HasFreeSlots F.SLOTS (lead_of F.PAGES F.SECTORS) self.new.raw
            × IsInPace F.PAGES F.SLOTS F.SECTORS F.sector_start self.new.raw 0 }
        // In pace it leaves the flash in pace at every exit, as a write does: it ends a move that is under way first.
        ensures stands { (extra : ℕ)
            → IsRoomy F.PAGES F.SLOTS F.SECTORS (extra + failed_since self.old.flash self.new.flash)
            → StandsInPace F.PAGES F.SLOTS F.SECTORS F.sector_start extra self.old
            → StandsInPace F.PAGES F.SLOTS F.SECTORS F.sector_start
            (extra + lost_since self.old.flash self.new.flash) self.new }
        ensures light { Tries 1 self.old.flash self.new.flash result }
        ensures work { Costs (2 * F.PAGES + 7 + 2 * F.SECTORS + 33 * move_steps_of F.PAGES F.SECTORS) 2 self.old.flash
            self.new.flash }
        ensures erases { self.new.flash.erases ≤ self.old.flash.erases + 2 * F.SECTORS + 1
            + move_steps_of F.PAGES F.SECTORS }
        // With the slots for a move none is under way: then at most as many erases as both areas and the witness have
        // sectors.
        ensures calm { HasFreeSlots F.SLOTS (lead_of F.PAGES F.SECTORS) self.old.raw
            → RenewsOnly F.PAGES F.SECTORS self.old.flash self.new.flash }
    {
        renew_pages(&mut self.flash, &mut self.place)?;
        Ok(())
    }
}

impl<F: FlashSocket> FlashLog<F> {
    ghost use Rattle.flash_moves.specs.Paces.{StandsInPace};

    /// Switches power on. The next call finds the pages again.
    pub fn light(&mut self)
        ensures log { self.new ≡ record self.old {
          flash = record self.old.flash { dark = false };
          paced = false;
          extra = 0;
          ready = false;
          tried = 0;
          fresh = true;
          free = 0;
          left = 0;
        } }
        // A log in pace stays so.
        ensures stands { (extra : ℕ) → StandsInPace F.PAGES F.SLOTS F.SECTORS F.sector_start extra self.old
            → StandsInPace F.PAGES F.SLOTS F.SECTORS F.sector_start extra self.new }
    {
        self.place.ready = false;
        self.place.tried = 0;
        self.flash.light();
    }

    /// Switches power off.
    pub fn power_off(&mut self)
        ensures { self.new ≡ record self.old { flash = record self.old.flash { dark = true } } }
    {
        self.flash.power_off();
    }
}

impl<F: CutFlash> FlashLog<F> {
    /// Sets program or erase `k` of the flash from now on, counted from 1, to lose power.
    pub fn set_cut(&mut self, k: u32)
        requires { 1 ≤ k }
        ensures { self.new ≡ record self.old { flash = record self.old.flash { due = 1 } } }
    {
        self.flash.set_cut(k);
    }

    /// Takes back the power loss that is set, if there is one.
    pub fn clear_cut(&mut self)
        ensures { self.new ≡ record self.old { flash = record self.old.flash { due = 0 } } }
    {
        self.flash.clear_cut();
    }

    /// Proves that the flash never failed.
    pub fn has_no_fault(&self)
        ensures { self.now.flash.faults ≡ 0 }
    {
        let _ = &self.flash;
    }
}

impl<F: FollowedFlash> FlashLog<F> {
    /// Returns true if the follower of the flash has all its operations, or if there was never one.
    pub fn is_kept(&self) -> bool
        ensures { result ≡ self.now.flash.kept }
    {
        self.flash.is_kept()
    }
}

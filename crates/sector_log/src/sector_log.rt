//! The log of a flash with small sectors as one value: the words that it stands for, and its power.
ghost use Rattle.std.specs.Prelude.{◌≡◌, ◌⊎◌, ◌<◌, ◌≤◌, ◌+◌, ◌-◌, ◌*◌, ℕ, true, false, length, slice_index};
ghost use Rattle.std.specs.Prelude.{IfErr, IfOk, IsErrOf, OnOk};
ghost use Rattle.nvm_board.specs.declared.board.DeviceErr.TheVariants as DeviceErr;
ghost use Rattle.nvm_board.specs.Facts.{AreWords, IsMemory};
ghost use Rattle.nvm_board.specs.History.{written};
ghost use Rattle.flash_device.specs.FlashCalls.{Costs, Lights, Tries};
ghost use Rattle.flash_moves.specs.declared.ahead.TheConstants.{TRIES};

use crate::opening::{SectorFault, find_log, new_place};
use crate::renewing::renew_at;
use crate::tries::{read_at, write_at};
use flash_device::{CutFlash, FlashSocket, FollowedFlash};
use flash_moves::PageMap;
use nvm_board::DeviceErr;
use sector_moves::SectorFlash;
use std::marker::Model;

/// A flash with small sectors, and where its pages are.
#[derive(Drop)]
pub struct SectorLog<F: SectorFlash> {
    flash: F,
    place: PageMap<F::Table>,
}

impl<F: SectorFlash> Model for SectorLog<F> {
    ghost use Rattle.sector_moves.specs.SectorPlaces.{IsSectorLog};
    ghost use Rattle.sector_log.specs.SectorLogs.{SectorLogState, sector_log_value};

    ghost Value = { SectorLogState };

    ghost view = { λ l. sector_log_value F.PAGES F.SLOTS F.SECTORS (F.state l.flash) l.place };

    ghost invariant = { λ l. IsSectorLog F.Table.entries F.PAGES F.SLOTS F.SECTORS F.sector_start
        (F.state l.flash).words l.place };
}

impl<F: SectorFlash> SectorLog<F> {
    ghost use Rattle.flash_device.specs.FlashCalls.{StaysLit};
    ghost use Rattle.flash_device.specs.FlashBlocks.{steps_of};
    ghost use Rattle.flash_device.specs.FlashLogs.{base_in, find, turn_of, words_of};
    ghost use Rattle.flash_device.specs.PageTables.{AreFree};
    ghost use Rattle.flash_moves.specs.Places.{FindsFree, state_of};
    ghost use Rattle.flash_log.specs.Renewals.{HoldsOnlyPages};
    ghost use Rattle.flash_log.specs.SlotsInTurn.{IsNextSlot};
    ghost use Rattle.flash_moves.specs.Rings.{IsRing};
    ghost use Rattle.sector_log.specs.SectorLogs.{FindsSteps, GivesUpBehind, KeepsBeside, ShowsSteps};
    ghost use Rattle.sector_log.specs.SectorLogs.{new_sector_log};
    ghost use Rattle.sector_log.specs.SectorOpenings.{SectorOpenStopsBy};
    ghost use Rattle.sector_moves.specs.SectorSpares.{HasFewestSteps, HasRoomForSteps, sector_lead};
    ghost use Rattle.sector_moves.specs.SectorSpares.{spare_slot};

    /// The log of a flash that has one.
    pub fn new(flash: F) -> SectorLog<F>
        requires ring { IsRing F.SLOTS (F.state flash).words }
        requires in_step { HasRoomForSteps F.PAGES F.SLOTS F.SECTORS F.sector_start (F.state flash).words 0 }
        ensures is { result ≡ new_sector_log F.PAGES F.SLOTS (F.state flash) }
    {
        SectorLog {
            flash,
            place: new_place(),
        }
    }

    /// The log of a flash, if it has one in step. It reads all pages.
    ///
    /// # Errors
    /// The flash has no log, or one that isn't in step, power was lost, or the flash failed.
    pub fn open(flash: F) -> Result<SectorLog<F>, (F, SectorFault)>
        requires { (F.state flash).dark ≡ false }
        ensures words { IfOk result (λ l. l.flash.words ≡ words_of F.PAGES F.SLOTS (F.state flash).words) }
        ensures raw { IfOk result (λ l. l.raw ≡ (F.state flash).words) }
        // It knows all free slots.
        ensures free { IfOk result (λ l. FindsFree F.SLOTS (F.state flash).words l.free) }
        // No more steps are left than by any progress that the flash shows, and that leaves at most nine slots over.
        ensures fewest { IfOk result (λ l. HasFewestSteps F.PAGES F.SLOTS F.SECTORS F.sector_start
            (F.state flash).words (turn_of F.SLOTS (F.state flash).words) l.free l.steps) }
        ensures finds { IfOk result (λ l. FindsSteps F.PAGES F.SLOTS F.SECTORS F.sector_start l) }
        ensures tried { IfOk result (λ l. l.tried ≡ 0) }
        ensures lit { IfOk result (λ l. StaysLit (F.state flash) l.flash) }
        ensures has_log { IfOk result (λ _. IsRing F.SLOTS (F.state flash).words
            × HasRoomForSteps F.PAGES F.SLOTS F.SECTORS F.sector_start (F.state flash).words 0) }
        ensures stopped { IfErr result (λ e. SectorOpenStopsBy F.PAGES F.SLOTS F.SECTORS F.sector_start e.1
            (F.state flash) (F.state e.0)) }
        ensures work { IfOk result (λ l. (l.flash.operations ≡ (F.state flash).operations)
            × (l.flash.erases ≡ (F.state flash).erases)) }
        ensures stopped_work { IfErr result (λ e. ((F.state e.0).operations ≡ (F.state flash).operations)
            × ((F.state e.0).erases ≡ (F.state flash).erases)) }
    {
        let mut flash = flash;
        let mut place = new_place();
        match find_log(&mut flash, &mut place) {
            Ok(None) => {
                place.ready = true;
                Ok(SectorLog { flash, place })
            }
            Ok(Some(why)) => Err((flash, why)),
            Err(DeviceErr::PowerLost) => Err((flash, SectorFault::PowerLost)),
            Err(DeviceErr::Fault) => Err((flash, SectorFault::Fault)),
        }
    }

    /// Gives the flash back, of which a log can be made again.
    pub fn into_flash(self) -> F
        ensures is { state_of F.PAGES F.SLOTS (F.state result) ≡ self.flash }
        ensures ring { IsRing F.SLOTS (F.state result).words }
        ensures in_step { HasRoomForSteps F.PAGES F.SLOTS F.SECTORS F.sector_start (F.state result).words 0 }
        ensures raw { (F.state result).words ≡ self.raw }
    {
        let SectorLog { flash, place: _ } = self;
        flash
    }

    /// Proves that the words are those of a board, 16 a page, and have 32 bits.
    pub fn words_fit(&self)
        ensures size { length self.now.flash.words ≡ 16 * F.PAGES }
        ensures memory { IsMemory self.now.flash.words }
        ensures fit { AreWords self.now.flash.words }
    {
        let _ = &self.flash;
    }

    /// Proves that the free slots that the log knows are blank and untried, that it has one for each step that is left,
    /// and that the flash shows how far the move has come.
    pub fn has_free(&self)
        ensures blank { 0 < self.now.free → AreFree self.now.raw (base_in F.SLOTS (turn_of F.SLOTS self.now.raw))
            (F.SLOTS - self.now.free) F.SLOTS }
        ensures passed { self.now.tried + self.now.free ≤ F.SLOTS }
        ensures in_step { self.now.steps ≤ self.now.free }
        ensures shows { 0 < self.now.free → ShowsSteps F.PAGES F.SLOTS F.SECTORS F.sector_start self.now }
        ensures fresh { self.now.fresh ≡ true → (self.now.free ≡ 0) × (self.now.tried ≡ 0) }
    {
        let _ = &self.flash;
    }

    /// Reads a word.
    pub fn read(&mut self, at: u16) -> Result<u32, DeviceErr>
        requires lit { self.old.flash.dark ≡ false }
        requires at { at < 16 * F.PAGES }
        ensures word { IfOk result (λ w. w ≡ slice_index self.old.flash.words at) }
        ensures words { self.new.flash.words ≡ self.old.flash.words }
        ensures work { self.new.flash.operations ≡ self.old.flash.operations }
        ensures erases { self.new.flash.erases ≡ self.old.flash.erases }
        ensures light { Lights self.old.flash self.new.flash result }
        ensures raw { self.new.raw ≡ self.old.raw }
        ensures free { self.old.free ≤ self.new.free }
        // A log stays as it is if it knew its pages, or still has to find them.
        ensures known { 0 < self.old.free → self.new ≡ record self.old { flash = self.new.flash } }
        ensures waits { self.new.free ≡ 0 → self.new ≡ record self.old { flash = self.new.flash } }
        // Behind Ok it knows them, and has a free slot for each step that is left.
        ensures in_step { OnOk result ((0 < self.new.free) × (self.new.steps ≤ self.new.free)) }
        // If it had to look, no slot is passed over, and until power-on none is taken again.
        ensures tried { self.new.tried ≡ self.old.tried }
        ensures next { self.old.free ≡ 0 → 0 < self.new.free
            → IsNextSlot F.SLOTS self.old.raw self.old.tried (F.SLOTS - self.new.free) }
        // Then no more steps are left than by any progress that the flash shows with nine slots over at most.
        ensures fewest { self.old.free ≡ 0 → 0 < self.new.free → HasFewestSteps F.PAGES F.SLOTS F.SECTORS
            F.sector_start self.old.raw (turn_of F.SLOTS self.old.raw) self.new.free self.new.steps }
        ensures finds { self.old.free ≡ 0 → 0 < self.new.free
            → FindsSteps F.PAGES F.SLOTS F.SECTORS F.sector_start self.new }
        // After the first read behind a power-on, the log knows all free slots.
        ensures found { OnOk result (self.old.fresh ≡ true → FindsFree F.SLOTS self.old.raw self.new.free) }
        // If it fails before it knows them, the next read looks for them.
        ensures looks { self.old.fresh ≡ true
            → (self.new.fresh ≡ true) ⊎ FindsFree F.SLOTS self.old.raw self.new.free }
    {
        read_at(&mut self.flash, &mut self.place, at)
    }

    /// Writes a run of a page. At every exit all words of the run are old, or all are new.
    pub fn write(&mut self, page: u16, first: u8, words: &[u32]) -> Result<(), DeviceErr>
        requires lit { self.old.flash.dark ≡ false }
        requires page { page < F.PAGES }
        requires run { first + length words.now ≤ 16 }
        ensures whole { (self.new.flash.words ≡ self.old.flash.words)
            ⊎ (self.new.flash.words ≡ written self.old.flash.words (16 * page + first) words.now) }
        ensures done { OnOk result (self.new.flash.words
            ≡ written self.old.flash.words (16 * page + first) words.now) }
        // However often power was lost before and the flash fails, a write begins at most 64 programs and erases, one
        // of them an erase of one sector. Without a Fault it begins at most 38, and for each two more.
        ensures most { self.new.flash.operations ≤ self.old.flash.operations + 64 }
        ensures work { Costs 38 2 self.old.flash self.new.flash }
        ensures erases { self.new.flash.erases ≤ self.old.flash.erases + 1 }
        ensures light { Tries 1 self.old.flash self.new.flash result }
        // While more free slots are known than a move begins at, it fails only if as many tries did. Each passed over
        // its slot.
        ensures tries { sector_lead F.SECTORS < self.old.free → Tries TRIES self.old.flash self.new.flash result }
        ensures gives_up { IsErrOf result DeviceErr.Fault → sector_lead F.SECTORS < self.old.free
            → self.new.free + TRIES ≤ self.old.free }
        // In a move too it fails only behind eight Faults; or behind more than slots were free beside those of the
        // steps, where the steps need all that are left; or if a step failed that has yet to copy another page again.
        // Such a step ends behind fewer Faults than its sector has slots over, up to seven, only where nothing but its
        // erase was begun.
        ensures keeps_trying { (k : ℕ) → 0 < self.old.free → self.old.steps + k ≤ self.old.free
            → IsErrOf result DeviceErr.Fault
            → GivesUpBehind F.PAGES F.SLOTS F.SECTORS F.sector_start page k self.old self.new }
        // Behind it, no fewer slots are free beside those of the steps than before, or than eight, but for one for each
        // Fault.
        ensures beside { 0 < self.old.free → 0 < self.new.free → KeepsBeside self.old self.new }
        // While more free slots are known than a move begins at, and the flash doesn't fail, a write takes one of them,
        // and erases nothing: no step of a move is due.
        ensures calm { sector_lead F.SECTORS < self.old.free → self.new.flash.faults ≡ self.old.flash.faults
            → (self.new.flash.operations ≤ self.old.flash.operations + 2)
            × (self.new.flash.erases ≡ self.old.flash.erases) }
        ensures slot { OnOk result (sector_lead F.SECTORS < self.old.free
            → self.new.flash.faults ≡ self.old.flash.faults → self.new.free + 1 ≡ self.old.free) }
        // The record is in the last slot that isn't free.
        ensures last { OnOk result (find self.new.raw (base_in F.SLOTS (turn_of F.SLOTS self.new.raw)) F.SLOTS page
            ≡ F.SLOTS - self.new.free) }
        // Behind Ok only the copy of its page may be older, else also the one that might be before.
        ensures older { OnOk result ((self.new.older ≡ 0) ⊎ (self.new.older ≡ page + 1)) }
        ensures stays_older { 0 < self.old.free → 0 < self.new.free → (self.new.older ≡ 0)
            ⊎ ((self.new.older ≡ page + 1) ⊎ (self.new.older ≡ self.old.older)) }
        // A move leaves all slots free but those of the sectors that its steps filled, and that of the record.
        ensures regains { OnOk result (self.new.flash.faults ≡ self.old.flash.faults
            → 0 < self.old.free → self.old.free < self.new.free
            → self.new.free + 1 + spare_slot F.SLOTS F.SECTORS F.sector_start (turn_of F.SLOTS self.old.raw)
            (steps_of F.PAGES) ≡ F.SLOTS) }
    {
        write_at(&mut self.flash, &mut self.place, page, first, words)
    }

    /// Leaves nothing in the flash but the pages as they are: no old words of a page, in no slot. At every exit the
    /// words of the board are the same. After an error it is to be called again.
    pub fn renew(&mut self) -> Result<(), DeviceErr>
        requires { self.old.flash.dark ≡ false }
        ensures words { self.new.flash.words ≡ self.old.flash.words }
        ensures only { OnOk result (HoldsOnlyPages F.PAGES F.SLOTS self.new.raw) }
        ensures light { Tries 1 self.old.flash self.new.flash result }
        // It ends the move that is under way, moves all pages once more, and erases the area that they leave.
        ensures work { Costs (2 * F.PAGES + 5 + 2 * F.SECTORS + 36 * (F.SECTORS + 1)) 2 self.old.flash self.new.flash }
        ensures erases { self.new.flash.erases ≤ self.old.flash.erases + 3 * F.SECTORS + 2 }
    {
        renew_at(&mut self.flash, &mut self.place)
    }
}

impl<F: FlashSocket + SectorFlash> SectorLog<F> {
    /// Switches power on. The next call finds the pages again.
    pub fn light(&mut self)
        ensures { self.new ≡ record self.old {
          flash = record self.old.flash { dark = false };
          fresh = true;
          tried = 0;
          free = 0;
          steps = 0;
          older = 0;
        } }
    {
        self.place.ready = false;
        self.place.tried = 0;
        self.flash.light();
    }

    /// Switches power off.
    pub fn power_off(&mut self)
        ensures { self.new ≡ record self.old { flash = record self.old.flash { dark = true } } }
    {
        self.flash.power_off();
    }
}

impl<F: CutFlash + SectorFlash> SectorLog<F> {
    /// Sets program or erase `k` of the flash from now on, counted from 1, to lose power.
    pub fn set_cut(&mut self, k: u32)
        requires { 1 ≤ k }
        ensures { self.new ≡ record self.old { flash = record self.old.flash { due = 1 } } }
    {
        self.flash.set_cut(k);
    }

    /// Takes back the power loss that is set, if there is one.
    pub fn clear_cut(&mut self)
        ensures { self.new ≡ record self.old { flash = record self.old.flash { due = 0 } } }
    {
        self.flash.clear_cut();
    }

    /// Proves that the flash never failed.
    pub fn has_no_fault(&self)
        ensures { self.now.flash.faults ≡ 0 }
    {
        let _ = &self.flash;
    }
}

impl<F: FollowedFlash + SectorFlash> SectorLog<F> {
    /// Returns true if the follower of the flash has all its operations, or if there was never one.
    pub fn is_kept(&self) -> bool
        ensures { result ≡ self.now.flash.kept }
    {
        self.flash.is_kept()
    }
}

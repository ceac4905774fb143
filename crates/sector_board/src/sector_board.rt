//! The board on a flash with small sectors.
ghost use Rattle.std.specs.Prelude.{◌≡◌, ◌+◌, ◌-◌, ◌*◌, ◌<◌, ◌≤◌, ◌↔◌, ◌⊎◌, ℕ, if◌then◌else◌, true, false};
ghost use Rattle.std.specs.Prelude.{All, IfOk, IsErr, IsErrOf, IsTrue, OnErr, OnOk, length, slice_index};
ghost use Rattle.nvm_board.specs.declared.board.DeviceErr.TheVariants as DeviceErr;
ghost use Rattle.nvm_board.specs.declared.board.TheConstants.{SECRETS, COUNT_END};
ghost use Rattle.nvm_board.specs.Facts.{AreWords, IsMemory};

use flash_board::{are_equal, has_ended};
use flash_device::{CutFlash, FlashSocket, FollowedFlash};
use nvm_board::{Board, COUNT_END, DeviceErr, SECRETS, Socket, WornOut};
use sector_log::SectorLog;
use sector_moves::SectorFlash;

/// A board on a flash with small sectors. No write of it is long, however often power is lost.
#[derive(Drop)]
pub struct SectorBoard<F: SectorFlash> {
    log: SectorLog<F>,
    dark: bool,
    faults: u64,
    cuts: u64,
    writes: u64,
    compares: [u64; SECRETS as usize],
    matches: [u64; SECRETS as usize],
    ghost lit: { dark ≡ false → log.flash.dark ≡ false },
    ghost sized: { length log.flash.words ≡ 16 * F.PAGES },
    ghost memory: { IsMemory log.flash.words },
    ghost words_fit: { AreWords log.flash.words },
    ghost compares_counted: { length compares ≡ SECRETS },
    ghost matches_counted: { length matches ≡ SECRETS },
    ghost faults_fit: { faults ≤ COUNT_END },
    ghost cuts_fit: { cuts ≤ COUNT_END },
    ghost writes_fit: { writes ≤ COUNT_END },
    ghost compares_fit: { All (λ n. n ≤ COUNT_END) compares },
    ghost matches_fit: { All (λ n. n ≤ COUNT_END) matches },
    ghost may_go: { dark ≡ false → cuts < COUNT_END },
    ghost faults_are_its_own: { faults ≤ log.flash.faults },
}

impl<F: SectorFlash> SectorBoard<F> {
    ghost use Rattle.nvm_board.specs.Facts.{Answered, IsLostRightly, IsWorn, IsWornOut, raised};
    ghost use Rattle.flash_board.specs.FlashFacts.{made_of};
    ghost use Rattle.flash_device.specs.FlashCalls.{Costs};
    ghost use Rattle.flash_device.specs.FlashLogs.{base_in, turn_of};
    ghost use Rattle.flash_device.specs.PageTables.{AreFree};
    ghost use Rattle.flash_log.specs.Renewals.{HoldsOnlyPages};
    ghost use Rattle.sector_log.specs.SectorLogs.{ShowsSteps};
    ghost use Rattle.sector_board.specs.SectorFacts.{sector_facts, sector_state};

    /// The board of a log that has power. Its counts are 0.
    pub fn new(log: SectorLog<F>) -> SectorBoard<F>
        requires { log.flash.dark ≡ false }
        ensures facts { sector_facts result ≡ made_of log.flash }
        ensures log { sector_state result ≡ log }
    {
        log.words_fit();
        SectorBoard {
            log,
            dark: false,
            faults: 0,
            cuts: 0,
            writes: 0,
            compares: [0; SECRETS as usize],
            matches: [0; SECRETS as usize],
        }
    }

    /// Gives the log back.
    pub fn into_log(self) -> SectorLog<F>
        ensures words { result.flash.words ≡ (sector_facts self).words }
        ensures due { result.flash.due ≡ (sector_facts self).due }
        ensures lit { (sector_facts self).dark ≡ false → result.flash.dark ≡ false }
        ensures log { result ≡ sector_state self }
        // A fault of the board is one of its flash.
        ensures faults { (sector_facts self).faults ≤ result.flash.faults }
    {
        let SectorBoard { log, .. } = self;
        log
    }

    /// Proves that the free slots that the log knows are blank and untried, that it has one for each step that is left,
    /// and that the flash shows how far the move has come.
    pub fn has_free(&self)
        ensures blank { 0 < (sector_state self.now).free → AreFree (sector_state self.now).raw
            (base_in F.SLOTS (turn_of F.SLOTS (sector_state self.now).raw)) (F.SLOTS - (sector_state self.now).free)
            F.SLOTS }
        ensures passed { (sector_state self.now).tried + (sector_state self.now).free ≤ F.SLOTS }
        ensures in_step { (sector_state self.now).steps ≤ (sector_state self.now).free }
        ensures shows { 0 < (sector_state self.now).free
            → ShowsSteps F.PAGES F.SLOTS F.SECTORS F.sector_start (sector_state self.now) }
        ensures fresh { (sector_state self.now).fresh ≡ true
            → ((sector_state self.now).free ≡ 0) × ((sector_state self.now).tried ≡ 0) }
    {
        self.log.has_free();
    }

    /// Leaves nothing in the flash but the pages as they are: no old words of a page, in no slot. It changes no word of
    /// the board, and no count but those of faults and power losses.
    ///
    /// # Errors
    /// Power failed in the call, or was off, or the flash failed. Then it is to be called again.
    #[tactic(auto, unfolding(nvm_board::specs::Facts::IsLostRightly))]
    pub fn renew(&mut self) -> Result<(), DeviceErr>
        ensures same { sector_facts self.new ≡ record (sector_facts self.old) {
          dark = (sector_facts self.new).dark;
          due = (sector_facts self.new).due;
          faults = (sector_facts self.new).faults;
          cuts = (sector_facts self.new).cuts;
        } }
        ensures light { Answered (sector_facts self.old) (sector_facts self.new) result }
        ensures worn { IsLostRightly (sector_facts self.old) (sector_facts self.new) result }
        ensures only { OnOk result (HoldsOnlyPages F.PAGES F.SLOTS (sector_state self.new).raw) }
        ensures work { Costs (2 * F.PAGES + 5 + 2 * F.SECTORS + 36 * (F.SECTORS + 1)) 2
            (sector_state self.old).flash (sector_state self.new).flash }
        ensures erases { (sector_state self.new).flash.erases
            ≤ (sector_state self.old).flash.erases + 3 * F.SECTORS + 2 }
    {
        if self.dark {
            return Err(DeviceErr::PowerLost);
        }
        match self.log.renew() {
            Ok(()) => Ok(()),
            Err(DeviceErr::PowerLost) => {
                self.cuts += 1;
                self.dark = true;
                Err(DeviceErr::PowerLost)
            }
            Err(DeviceErr::Fault) => {
                if self.faults == COUNT_END {
                    self.cuts += 1;
                    self.dark = true;
                    return Err(DeviceErr::PowerLost);
                }
                self.faults += 1;
                Err(DeviceErr::Fault)
            }
        }
    }

    /// Returns true if a count is at its end.
    fn is_worn_out(&self) -> bool
        ensures worn { IsTrue result ↔ IsWornOut (sector_facts self.now) }
        ensures spare { result ≡ false → self.now.cuts < COUNT_END }
    {
        self.cuts == COUNT_END
            || self.faults == COUNT_END
            || self.writes == COUNT_END
            || has_ended(&self.compares)
            || has_ended(&self.matches)
    }

    /// Loses power in a call.
    fn go_dark(&mut self)
        requires { self.old.dark ≡ false }
        ensures facts { sector_facts self.new
            ≡ record (sector_facts self.old) { dark = true; cuts = self.old.cuts + 1 } }
        ensures log { self.new.log ≡ self.old.log }
    {
        self.cuts += 1;
        self.dark = true;
    }

    /// Returns true if a count of this comparison is at its end: that of comparisons, or on a match that of matches.
    fn counts_end(&self, secret: usize, equal: bool) -> bool
        requires { secret < SECRETS }
        ensures exact { IsTrue result ↔ ((slice_index self.now.compares secret ≡ COUNT_END)
            ⊎ ((equal ≡ true) × (slice_index self.now.matches secret ≡ COUNT_END))) }
        ensures worn { IsTrue result → IsWorn (sector_facts self.now) }
        ensures spare { result ≡ false → slice_index self.now.compares secret < COUNT_END }
        ensures spare_match { result ≡ false → equal ≡ true → slice_index self.now.matches secret < COUNT_END }
    {
        self.compares[secret] == COUNT_END || equal && self.matches[secret] == COUNT_END
    }

    /// Counts a comparison of a secret, and a match if `equal`.
    fn count(&mut self, secret: usize, equal: bool)
        requires place { secret < SECRETS }
        requires spare { slice_index self.old.compares secret < COUNT_END }
        requires spare_match { equal ≡ true → slice_index self.old.matches secret < COUNT_END }
        ensures facts { sector_facts self.new ≡ record (sector_facts self.old) {
          compares = raised self.old.compares secret;
          matches = if equal then raised self.old.matches secret else self.old.matches;
        } }
        ensures log { self.new.log ≡ self.old.log }
    {
        self.compares[secret] += 1;
        if equal {
            self.matches[secret] += 1;
        }
    }
}

impl<F: SectorFlash> Board for SectorBoard<F> {
    ghost use Rattle.flash_device.specs.FlashBlocks.{steps_of};
    ghost use Rattle.flash_device.specs.FlashCalls.{Costs};
    ghost use Rattle.flash_device.specs.FlashLogs.{base_in, find, turn_of};
    ghost use Rattle.flash_moves.specs.Places.{FindsFree};
    ghost use Rattle.flash_log.specs.SlotsInTurn.{IsNextSlot};
    ghost use Rattle.nvm_board.specs.BoardCalls.{Compares, FitsPage, TellsWord, Writes};
    ghost use Rattle.nvm_board.specs.Facts.{address};
    ghost use Rattle.sector_board.specs.SectorFacts.{sector_facts, sector_state};
    ghost use Rattle.sector_board.specs.laws.SectorBoards.{sector_is_board};
    ghost use Rattle.sector_log.specs.SectorLogs.{FindsSteps, GivesUpBehind, KeepsBeside};
    ghost use Rattle.sector_moves.specs.SectorSpares.{HasFewestSteps, sector_lead, spare_slot};
    ghost use Rattle.flash_moves.specs.declared.ahead.TheConstants.{TRIES};

    ghost facts = { sector_facts };

    fn pages(&self) -> u16 {
        F::PAGES
    }

    #[tactic(auto, unfolding(nvm_board::specs::Facts::IsLostRightly))]
    fn read(&mut self, at: u16) -> Result<u32, DeviceErr>
        requires { at < length (sector_facts self.old).words }
        ensures word { TellsWord at (sector_facts self.old) (sector_facts self.new) result }
        // It programs and erases nothing.
        ensures work { (sector_state self.new).flash.operations ≡ (sector_state self.old).flash.operations }
        ensures erases { (sector_state self.new).flash.erases ≡ (sector_state self.old).flash.erases }
        ensures free { (sector_state self.old).free ≤ (sector_state self.new).free }
        ensures raw { (sector_state self.new).raw ≡ (sector_state self.old).raw }
        // A log stays as it is if it knew its pages, or still has to find them.
        ensures known { 0 < (sector_state self.old).free
            → sector_state self.new ≡ record (sector_state self.old) { flash = (sector_state self.new).flash } }
        ensures waits { (sector_state self.new).free ≡ 0
            → sector_state self.new ≡ record (sector_state self.old) { flash = (sector_state self.new).flash } }
        // Behind Ok it knows them, and has a free slot for each step that is left.
        ensures in_step { OnOk result ((0 < (sector_state self.new).free)
            × ((sector_state self.new).steps ≤ (sector_state self.new).free)) }
        // If it had to look, no slot is passed over, and until power-on none is taken again.
        ensures tried { (sector_state self.new).tried ≡ (sector_state self.old).tried }
        ensures next { (sector_state self.old).free ≡ 0 → 0 < (sector_state self.new).free
            → IsNextSlot F.SLOTS (sector_state self.old).raw (sector_state self.old).tried
            (F.SLOTS - (sector_state self.new).free) }
        // Then no more steps are left than by any progress that the flash shows with nine slots over at most.
        ensures fewest { (sector_state self.old).free ≡ 0 → 0 < (sector_state self.new).free
            → HasFewestSteps F.PAGES F.SLOTS F.SECTORS F.sector_start (sector_state self.old).raw
            (turn_of F.SLOTS (sector_state self.old).raw) (sector_state self.new).free (sector_state self.new).steps }
        ensures finds { (sector_state self.old).free ≡ 0 → 0 < (sector_state self.new).free
            → FindsSteps F.PAGES F.SLOTS F.SECTORS F.sector_start (sector_state self.new) }
        // After the first read behind a power-on, the log knows all free slots.
        ensures found { OnOk result ((sector_state self.old).fresh ≡ true
            → FindsFree F.SLOTS (sector_state self.old).raw (sector_state self.new).free) }
        // If it fails before it knows them, the next read looks for them.
        ensures looks { (sector_state self.old).fresh ≡ true → ((sector_state self.new).fresh ≡ true)
            ⊎ FindsFree F.SLOTS (sector_state self.old).raw (sector_state self.new).free }
    {
        if self.dark {
            return Err(DeviceErr::PowerLost);
        }
        match self.log.read(at) {
            Ok(word) => Ok(word),
            Err(DeviceErr::PowerLost) => {
                self.cuts += 1;
                self.dark = true;
                Err(DeviceErr::PowerLost)
            }
            Err(DeviceErr::Fault) => {
                if self.faults == COUNT_END {
                    self.cuts += 1;
                    self.dark = true;
                    return Err(DeviceErr::PowerLost);
                }
                self.faults += 1;
                Err(DeviceErr::Fault)
            }
        }
    }

    #[tactic(auto, unfolding(nvm_board::specs::Facts::IsLostRightly))]
    fn write(&mut self, page: u16, first: u8, words: &[u32]) -> Result<(), DeviceErr>
        requires { FitsPage page first words.now (sector_facts self.old) }
        ensures writes { Writes (address page first) words.now (sector_facts self.old) (sector_facts self.new) result }
        // However often power was lost before and the flash fails, a write begins at most 64 programs and erases, one
        // of them an erase of one sector. Without a Fault it begins at most 38, and for each two more.
        ensures most { (sector_state self.new).flash.operations ≤ (sector_state self.old).flash.operations + 64 }
        ensures work { Costs 38 2 (sector_state self.old).flash (sector_state self.new).flash }
        ensures erases { (sector_state self.new).flash.erases ≤ (sector_state self.old).flash.erases + 1 }
        // While more free slots are known than a move begins at, it fails only if as many tries did. Each passed over
        // its slot.
        ensures tries { IsErrOf result DeviceErr.Fault → sector_lead F.SECTORS < (sector_state self.old).free
            → ((sector_state self.old).flash.faults + TRIES ≤ (sector_state self.new).flash.faults)
            × ((sector_state self.new).free + TRIES ≤ (sector_state self.old).free) }
        // In a move too it fails only behind eight Faults; or behind more than slots were free beside those of the
        // steps, where the steps need all that are left; or if a step failed that has yet to copy another page again.
        // Such a step ends behind fewer Faults than its sector has slots over, up to seven, only where nothing but its
        // erase was begun.
        ensures keeps_trying { (k : ℕ) → IsErrOf result DeviceErr.Fault → 0 < (sector_state self.old).free
            → (sector_state self.old).steps + k ≤ (sector_state self.old).free
            → GivesUpBehind F.PAGES F.SLOTS F.SECTORS F.sector_start page k (sector_state self.old)
            (sector_state self.new) }
        // Behind it, no fewer slots are free beside those of the steps than before, or than eight, but for one for each
        // Fault.
        ensures beside { 0 < (sector_state self.old).free → 0 < (sector_state self.new).free
            → KeepsBeside (sector_state self.old) (sector_state self.new) }
        // While more free slots are known than a move begins at, and the flash doesn't fail, a write takes one of them,
        // and erases nothing: no step of a move is due.
        ensures calm { sector_lead F.SECTORS < (sector_state self.old).free
            → (sector_state self.new).flash.faults ≡ (sector_state self.old).flash.faults
            → ((sector_state self.new).flash.operations ≤ (sector_state self.old).flash.operations + 2)
            × ((sector_state self.new).flash.erases ≡ (sector_state self.old).flash.erases) }
        ensures slot { OnOk result (sector_lead F.SECTORS < (sector_state self.old).free
            → (sector_state self.new).flash.faults ≡ (sector_state self.old).flash.faults
            → (sector_state self.new).free + 1 ≡ (sector_state self.old).free) }
        // The record is in the last slot that isn't free.
        ensures last { OnOk result (find (sector_state self.new).raw
            (base_in F.SLOTS (turn_of F.SLOTS (sector_state self.new).raw)) F.SLOTS page
            ≡ F.SLOTS - (sector_state self.new).free) }
        // Behind Ok only the copy of its page may be older, else also the one that might be before.
        ensures older { OnOk result (((sector_state self.new).older ≡ 0)
            ⊎ ((sector_state self.new).older ≡ page + 1)) }
        ensures stays_older { 0 < (sector_state self.old).free → 0 < (sector_state self.new).free
            → ((sector_state self.new).older ≡ 0) ⊎ (((sector_state self.new).older ≡ page + 1)
            ⊎ ((sector_state self.new).older ≡ (sector_state self.old).older)) }
        // A move leaves all slots free but those of the sectors that its steps filled, and that of the record.
        ensures regains { OnOk result ((sector_state self.new).flash.faults ≡ (sector_state self.old).flash.faults
            → 0 < (sector_state self.old).free → (sector_state self.old).free < (sector_state self.new).free
            → (sector_state self.new).free + 1 + spare_slot F.SLOTS F.SECTORS F.sector_start
            (turn_of F.SLOTS (sector_state self.old).raw) (steps_of F.PAGES) ≡ F.SLOTS) }
    {
        if self.dark {
            return Err(DeviceErr::PowerLost);
        }
        if self.writes == COUNT_END {
            self.cuts += 1;
            self.dark = true;
            return Err(DeviceErr::PowerLost);
        }
        let ended = self.log.write(page, first, words);
        self.log.words_fit();
        match ended {
            Ok(()) => {
                self.writes += 1;
                Ok(())
            }
            Err(DeviceErr::PowerLost) => {
                self.cuts += 1;
                self.dark = true;
                Err(DeviceErr::PowerLost)
            }
            Err(DeviceErr::Fault) => {
                if self.faults == COUNT_END {
                    self.cuts += 1;
                    self.dark = true;
                    return Err(DeviceErr::PowerLost);
                }
                self.faults += 1;
                Err(DeviceErr::Fault)
            }
        }
    }

    #[tactic(auto, unfolding(nvm_board::specs::Facts::IsLostRightly))]
    fn compare(&mut self, secret: u8, kept: &[u8; 8], shown: &[u8; 8]) -> Result<bool, DeviceErr>
        requires { secret < SECRETS }
        ensures compared { Compares secret kept.now shown.now (sector_facts self.old) (sector_facts self.new) result }
        ensures log { sector_state self.new ≡ sector_state self.old }
    {
        if self.dark {
            return Err(DeviceErr::PowerLost);
        }
        let place = usize::from(secret);
        let equal = are_equal(kept, shown);
        if self.counts_end(place, equal) {
            self.go_dark();
            return Err(DeviceErr::PowerLost);
        }
        self.count(place, equal);
        Ok(equal)
    }

    ghost is_board = { sector_is_board };
}

impl<F: FlashSocket + SectorFlash> Socket for SectorBoard<F> {
    ghost use Rattle.nvm_board.specs.Facts.{IsWornOut};
    ghost use Rattle.sector_board.specs.SectorFacts.{sector_facts, sector_state};

    fn light(&mut self) -> Result<(), WornOut>
        ensures worn { IsErr result ↔ IsWornOut (sector_facts self.old) }
        ensures lit { OnOk result (sector_facts self.new ≡ record (sector_facts self.old) { dark = false }) }
        ensures same { OnErr result (sector_facts self.new ≡ sector_facts self.old) }
        ensures log { OnOk result (sector_state self.new ≡ record (sector_state self.old) {
          flash = record (sector_state self.old).flash { dark = false };
          fresh = true;
          tried = 0;
          free = 0;
          steps = 0;
          older = 0;
        }) }
    {
        if self.is_worn_out() {
            return Err(WornOut);
        }
        self.log.light();
        self.dark = false;
        Ok(())
    }

    fn power_off(&mut self)
        ensures off { sector_facts self.new ≡ record (sector_facts self.old) { dark = true } }
        // The flash is without power too.
        ensures log { sector_state self.new
            ≡ record (sector_state self.old) { flash = record (sector_state self.old).flash { dark = true } } }
    {
        self.log.power_off();
        self.dark = true;
    }
}

impl<F: CutFlash + SectorFlash> SectorBoard<F> {
    ghost use Rattle.sector_board.specs.SectorFacts.{sector_facts, sector_state};

    /// Returns true if power is off.
    pub fn is_dark(&self) -> bool
        ensures { result ≡ (sector_facts self.now).dark }
    {
        self.dark
    }

    /// Returns the number of writes that were counted.
    pub fn write_count(&self) -> u64
        ensures { result ≡ (sector_facts self.now).writes }
    {
        self.writes
    }

    /// Sets program or erase `k` of the flash from now on, counted from 1, to lose power.
    pub fn set_cut(&mut self, k: u32)
        requires { 1 ≤ k }
        ensures facts { sector_facts self.new ≡ record (sector_facts self.old) { due = 1 } }
        ensures log { sector_state self.new
            ≡ record (sector_state self.old) { flash = record (sector_state self.old).flash { due = 1 } } }
    {
        self.log.set_cut(k);
    }

    /// Takes back the power loss that is set, if there is one.
    pub fn clear_cut(&mut self)
        ensures facts { sector_facts self.new ≡ record (sector_facts self.old) { due = 0 } }
        ensures log { sector_state self.new
            ≡ record (sector_state self.old) { flash = record (sector_state self.old).flash { due = 0 } } }
    {
        self.log.clear_cut();
    }

    /// Loses power behind a write, which stays whole.
    pub fn lose_power(&mut self)
        requires { (sector_facts self.old).dark ≡ false }
        ensures facts { sector_facts self.new
            ≡ record (sector_facts self.old) { dark = true; cuts = (sector_facts self.old).cuts + 1 } }
        ensures log { sector_state self.new ≡ sector_state self.old }
    {
        self.go_dark();
    }

    /// Proves that the board counted no fault.
    pub fn has_no_fault(&self)
        ensures { (sector_facts self.now).faults ≡ 0 }
    {
        self.log.has_no_fault();
    }
}

impl<F: FollowedFlash + SectorFlash> SectorBoard<F> {
    ghost use Rattle.sector_board.specs.SectorFollowers.{sector_board_is_kept};

    /// Returns true if the follower of the flash has all its operations, or if there was never one.
    pub fn is_kept(&self) -> bool
        ensures { result ≡ sector_board_is_kept self.now }
    {
        self.log.is_kept()
    }
}

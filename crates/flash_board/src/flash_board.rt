//! The board on a flash.
ghost use Rattle.std.specs.Prelude.{◌≡◌, ◌+◌, ◌-◌, ◌*◌, ◌<◌, ◌≤◌, ◌↔◌, ◌⊎◌, ℕ, if◌then◌else◌, true, false, length};
ghost use Rattle.std.specs.Prelude.{All, Contains, IsErr, IsErrOf, IsTrue, OnErr, OnOk, slice_index};
ghost use Rattle.nvm_board.specs.declared.board.DeviceErr.TheVariants as DeviceErr;
ghost use Rattle.nvm_board.specs.declared.board.TheConstants.{SECRETS, COUNT_END};
ghost use Rattle.nvm_board.specs.Facts.{AreWords, IsMemory};

use flash_device::{CutFlash, Flash, FlashSocket, FollowedFlash};
use flash_log::FlashLog;
use nvm_board::{Board, COUNT_END, DeviceErr, SECRETS, Socket, WornOut};

/// A board on a flash.
#[derive(Drop)]
pub struct FlashBoard<F: Flash> {
    log: FlashLog<F>,
    dark: bool,
    faults: u64,
    cuts: u64,
    writes: u64,
    compares: [u64; SECRETS as usize],
    matches: [u64; SECRETS as usize],
    ghost lit: { dark ≡ false → log.flash.dark ≡ false },
    ghost sized: { length log.flash.words ≡ 16 * F.PAGES },
    ghost memory: { IsMemory log.flash.words },
    ghost words_fit: { AreWords log.flash.words },
    ghost compares_counted: { length compares ≡ SECRETS },
    ghost matches_counted: { length matches ≡ SECRETS },
    ghost faults_fit: { faults ≤ COUNT_END },
    ghost cuts_fit: { cuts ≤ COUNT_END },
    ghost writes_fit: { writes ≤ COUNT_END },
    ghost compares_fit: { All (λ n. n ≤ COUNT_END) compares },
    ghost matches_fit: { All (λ n. n ≤ COUNT_END) matches },
    ghost may_go: { dark ≡ false → cuts < COUNT_END },
    ghost faults_are_its_own: { faults ≤ log.flash.faults },
}

impl<F: Flash> FlashBoard<F> {
    ghost use Rattle.nvm_board.specs.Facts.{IsWorn, IsWornOut, raised};
    ghost use Rattle.nvm_board.specs.Facts.{Answered, IsLostRightly};
    ghost use Rattle.flash_device.specs.FlashCalls.{Costs};
    ghost use Rattle.flash_device.specs.FlashLogs.{base_in, turn_of};
    ghost use Rattle.flash_device.specs.PageTables.{AreFree};
    ghost use Rattle.flash_board.specs.FlashFacts.{flash_facts, log_state, made_of};
    ghost use Rattle.flash_board.specs.FlashFollowers.{board_is_kept};
    ghost use Rattle.flash_moves.specs.Paces.{HasFreeSlots, IsInPace, IsRoomy, RenewsOnly, StandsInPace, failed_since};
    ghost use Rattle.flash_moves.specs.Paces.{lead_of, lost_since, move_steps_of};
    ghost use Rattle.flash_log.specs.Renewals.{HoldsOnlyPages};
    ghost use Rattle.flash_log.specs.SlotsInTurn.{WillTake};
    ghost use Rattle.flash_log.specs.StepsLeft.{ShowsLeft};

    /// The board of a log that has power. Its counts are 0.
    pub fn new(log: FlashLog<F>) -> FlashBoard<F>
        requires { log.flash.dark ≡ false }
        ensures facts { flash_facts result ≡ made_of log.flash }
        ensures kept { board_is_kept result ≡ log.flash.kept }
        ensures log { log_state result ≡ log }
    {
        log.words_fit();
        FlashBoard {
            log,
            dark: false,
            faults: 0,
            cuts: 0,
            writes: 0,
            compares: [0; SECRETS as usize],
            matches: [0; SECRETS as usize],
        }
    }

    /// Gives the log back.
    pub fn into_log(self) -> FlashLog<F>
        ensures words { result.flash.words ≡ (flash_facts self).words }
        ensures due { result.flash.due ≡ (flash_facts self).due }
        ensures lit { (flash_facts self).dark ≡ false → result.flash.dark ≡ false }
        ensures kept { result.flash.kept ≡ board_is_kept self }
        ensures raw { result.raw ≡ (log_state self).raw }
        ensures log { result ≡ log_state self }
        // A fault of the board is one of its flash.
        ensures faults { (flash_facts self).faults ≤ result.flash.faults }
    {
        let FlashBoard { log, .. } = self;
        log
    }

    /// Proves that a board in pace will be in pace again behind any power-on: the flash holds all that it has to find.
    pub fn stays_in_pace(&self)
        ensures pace { (extra : ℕ) → StandsInPace F.PAGES F.SLOTS F.SECTORS F.sector_start extra (log_state self.now)
            → IsInPace F.PAGES F.SLOTS F.SECTORS F.sector_start (log_state self.now).raw extra }
        // A log that has yet to look for its pages has tried no slot.
        ensures fresh { (log_state self.now).fresh ≡ true
            → ((log_state self.now).ready ≡ false) × ((log_state self.now).tried ≡ 0) }
    {
        self.log.stays_in_pace();
    }

    /// Proves that slots that power losses and Faults took don't count behind the move.
    pub fn forgets_losses(&self)
        ensures { (log_state self.now).paced ≡ true → lead_of F.PAGES F.SECTORS < (log_state self.now).free
            → (log_state self.now).extra ≡ 0 }
    {
        self.log.forgets_losses();
    }

    /// Proves that the free slots that the log knows are blank.
    pub fn has_free(&self)
        ensures blank { 0 < (log_state self.now).free → AreFree (log_state self.now).raw
            (base_in F.SLOTS (turn_of F.SLOTS (log_state self.now).raw)) (F.SLOTS - (log_state self.now).free) F.SLOTS }
        // In pace the next write takes the first of them.
        ensures next { (log_state self.now).paced ≡ true → 0 < (log_state self.now).free
            → WillTake F.SLOTS (log_state self.now) (F.SLOTS - (log_state self.now).free) }
        // None of them was tried.
        ensures passed { (log_state self.now).tried + (log_state self.now).free ≤ F.SLOTS }
        // A log that knows its pages knows a progress of the move that the flash shows.
        ensures shows { (log_state self.now).ready ≡ true → ShowsLeft F.PAGES F.SLOTS F.SECTORS F.sector_start
            (log_state self.now).raw (log_state self.now).left }
    {
        self.log.has_free();
    }

    /// Leaves nothing in the flash but the pages as they are: no old words of a page, in no slot. It changes no word of
    /// the board, and no count but those of faults and power losses.
    ///
    /// # Errors
    /// Power failed in the call, or was off, or the flash failed. Then it is to be called again.
    #[tactic(auto, unfolding(nvm_board::specs::Facts::IsLostRightly))]
    pub fn renew(&mut self) -> Result<(), DeviceErr>
        ensures same { flash_facts self.new ≡ record (flash_facts self.old) {
          dark = (flash_facts self.new).dark;
          due = (flash_facts self.new).due;
          faults = (flash_facts self.new).faults;
          cuts = (flash_facts self.new).cuts;
        } }
        ensures light { Answered (flash_facts self.old) (flash_facts self.new) result }
        ensures worn { IsLostRightly (flash_facts self.old) (flash_facts self.new) result }
        ensures only { OnOk result (HoldsOnlyPages F.PAGES F.SLOTS (log_state self.new).raw) }
        ensures paced { OnOk result (IsRoomy F.PAGES F.SLOTS F.SECTORS 0
            → (log_state self.new).flash.faults ≤ (log_state self.old).flash.faults + lead_of F.PAGES F.SECTORS
            → ((log_state self.new).paced ≡ true) × ((log_state self.new).extra ≡ 0)) }
        // All slots but one for each page, and one for each Fault, are free.
        ensures free { OnOk result (F.SLOTS + (log_state self.old).flash.faults
            ≤ (log_state self.new).free + F.PAGES + (log_state self.new).flash.faults) }
        // With the slots for a move it leaves these, and the flash in pace, at every exit, also if it loses power.
        ensures lost { F.PAGES + ((log_state self.new).flash.faults - (log_state self.old).flash.faults)
            + lead_of F.PAGES F.SECTORS ≤ F.SLOTS
            → HasFreeSlots F.SLOTS (lead_of F.PAGES F.SECTORS) (log_state self.old).raw
            → HasFreeSlots F.SLOTS (lead_of F.PAGES F.SECTORS) (log_state self.new).raw
            × IsInPace F.PAGES F.SLOTS F.SECTORS F.sector_start (log_state self.new).raw 0 }
        // In pace it leaves the flash in pace at every exit, as a write does: it ends a move that is under way first.
        ensures stands { (extra : ℕ) → IsRoomy F.PAGES F.SLOTS F.SECTORS
            (extra + failed_since (log_state self.old).flash (log_state self.new).flash)
            → StandsInPace F.PAGES F.SLOTS F.SECTORS F.sector_start extra (log_state self.old)
            → StandsInPace F.PAGES F.SLOTS F.SECTORS F.sector_start
            (extra + lost_since (log_state self.old).flash (log_state self.new).flash) (log_state self.new) }
        ensures work { Costs (2 * F.PAGES + 7 + 2 * F.SECTORS + 33 * move_steps_of F.PAGES F.SECTORS) 2
            (log_state self.old).flash (log_state self.new).flash }
        ensures erases { (log_state self.new).flash.erases
            ≤ (log_state self.old).flash.erases + 2 * F.SECTORS + 1 + move_steps_of F.PAGES F.SECTORS }
        // With the slots for a move none is under way.
        ensures calm { HasFreeSlots F.SLOTS (lead_of F.PAGES F.SECTORS) (log_state self.old).raw
            → RenewsOnly F.PAGES F.SECTORS (log_state self.old).flash (log_state self.new).flash }
    {
        if self.dark {
            return Err(DeviceErr::PowerLost);
        }
        match self.log.renew() {
            Ok(()) => Ok(()),
            Err(DeviceErr::PowerLost) => {
                self.cuts += 1;
                self.dark = true;
                Err(DeviceErr::PowerLost)
            }
            Err(DeviceErr::Fault) => {
                if self.faults == COUNT_END {
                    self.cuts += 1;
                    self.dark = true;
                    return Err(DeviceErr::PowerLost);
                }
                self.faults += 1;
                Err(DeviceErr::Fault)
            }
        }
    }

    /// Returns true if a count is at its end.
    fn is_worn_out(&self) -> bool
        ensures worn { IsTrue result ↔ IsWornOut (flash_facts self.now) }
        ensures spare { result ≡ false → self.now.cuts < COUNT_END }
    {
        self.cuts == COUNT_END
            || self.faults == COUNT_END
            || self.writes == COUNT_END
            || has_ended(&self.compares)
            || has_ended(&self.matches)
    }

    /// Loses power in a call.
    fn go_dark(&mut self)
        requires { self.old.dark ≡ false }
        ensures facts { flash_facts self.new
            ≡ record (flash_facts self.old) { dark = true; cuts = self.old.cuts + 1 } }
        ensures log { self.new.log ≡ self.old.log }
    {
        self.cuts += 1;
        self.dark = true;
    }

    /// Returns true if a count of this comparison is at its end: that of comparisons, or on a match that of matches.
    fn counts_end(&self, secret: usize, equal: bool) -> bool
        requires { secret < SECRETS }
        ensures exact { IsTrue result ↔ ((slice_index self.now.compares secret ≡ COUNT_END)
            ⊎ ((equal ≡ true) × (slice_index self.now.matches secret ≡ COUNT_END))) }
        ensures worn { IsTrue result → IsWorn (flash_facts self.now) }
        ensures spare { result ≡ false → slice_index self.now.compares secret < COUNT_END }
        ensures spare_match { result ≡ false → equal ≡ true → slice_index self.now.matches secret < COUNT_END }
    {
        self.compares[secret] == COUNT_END || equal && self.matches[secret] == COUNT_END
    }

    /// Counts a comparison of a secret, and a match if `equal`.
    fn count(&mut self, secret: usize, equal: bool)
        requires place { secret < SECRETS }
        requires spare { slice_index self.old.compares secret < COUNT_END }
        requires spare_match { equal ≡ true → slice_index self.old.matches secret < COUNT_END }
        ensures facts { flash_facts self.new ≡ record (flash_facts self.old) {
          compares = raised self.old.compares secret;
          matches = if equal then raised self.old.matches secret else self.old.matches;
        } }
        ensures log { self.new.log ≡ self.old.log }
    {
        self.compares[secret] += 1;
        if equal {
            self.matches[secret] += 1;
        }
    }
}

impl<F: Flash> Board for FlashBoard<F> {
    ghost use Rattle.flash_board.specs.FlashFacts.{flash_facts, log_state};
    ghost use Rattle.flash_device.specs.FlashCalls.{Costs};
    ghost use Rattle.flash_moves.specs.Paces.{CopiesNoPage, IsInPace, IsRoomy, Pauses, RegainsSlots, StandsInPace};
    ghost use Rattle.flash_moves.specs.Paces.{StaysInArea, TakesSlot, extra_of, failed_since, lead_of, lost_since};
    ghost use Rattle.flash_moves.specs.Places.{FindsFree};
    ghost use Rattle.flash_log.specs.SlotsInTurn.{BeginsBy, GivesUp, SameNext, TakesInTurn, TriesOn, WillTake};
    ghost use Rattle.flash_log.specs.StepsLeft.{HasFewestLeft};
    ghost use Rattle.flash_moves.specs.declared.ahead.TheConstants.{TRIES};
    ghost use Rattle.flash_board.specs.laws.Boards.{flash_is_board};
    ghost use Rattle.nvm_board.specs.BoardCalls.{Compares, FitsPage, TellsWord, Writes};
    ghost use Rattle.nvm_board.specs.Facts.{address};

    ghost facts = { flash_facts };

    fn pages(&self) -> u16 {
        F::PAGES
    }

    #[tactic(auto, unfolding(nvm_board::specs::Facts::IsLostRightly))]
    fn read(&mut self, at: u16) -> Result<u32, DeviceErr>
        requires { at < length (flash_facts self.old).words }
        ensures word { TellsWord at (flash_facts self.old) (flash_facts self.new) result }
        ensures paced { (log_state self.old).paced ≡ true
            → ((log_state self.new).paced ≡ true) × ((log_state self.new).extra ≡ (log_state self.old).extra) }
        ensures free { (log_state self.old).free ≤ (log_state self.new).free }
        // After the first read behind a power-on, the log knows all free slots.
        ensures found { OnOk result ((log_state self.old).fresh ≡ true
            → FindsFree F.SLOTS (log_state self.old).raw (log_state self.new).free) }
        // If it fails before it knows them, the next read looks for them.
        ensures looks { (log_state self.old).fresh ≡ true → ((log_state self.new).fresh ≡ true)
            ⊎ FindsFree F.SLOTS (log_state self.old).raw (log_state self.new).free }
        // With more free slots than a move begins at, no move is under way.
        ensures in_pace { OnOk result ((log_state self.old).ready ≡ false
            → lead_of F.PAGES F.SECTORS < (log_state self.new).free
            → ((log_state self.new).paced ≡ true) × ((log_state self.new).extra ≡ 0)) }
        // Else what it finds is in pace, as long as the flash was and has the slots for its losses.
        ensures finds { OnOk result ((extra : ℕ) → extra ≤ extra_of F.PAGES F.SLOTS F.SECTORS
            → StandsInPace F.PAGES F.SLOTS F.SECTORS F.sector_start extra (log_state self.old)
            → ((log_state self.new).paced ≡ true) × ((log_state self.new).extra ≤ extra)) }
        ensures stands { (extra : ℕ) → extra ≤ extra_of F.PAGES F.SLOTS F.SECTORS
            → StandsInPace F.PAGES F.SLOTS F.SECTORS F.sector_start extra (log_state self.old)
            → StandsInPace F.PAGES F.SLOTS F.SECTORS F.sector_start extra (log_state self.new) }
        // Where a move is due, no more steps are left than by each that goes on or begins anew.
        ensures fewest { (log_state self.old).ready ≡ false → (log_state self.new).ready ≡ true
            → (log_state self.new).free ≤ lead_of F.PAGES F.SECTORS
            → HasFewestLeft F.PAGES F.SLOTS F.SECTORS F.sector_start (log_state self.old).raw
            (F.SLOTS - (log_state self.new).free) (log_state self.new).left }
        // What contracts know of it stays if it knew its pages, or still has to find them. Behind Ok it knows them.
        ensures known { (log_state self.old).ready ≡ true
            → log_state self.new ≡ record (log_state self.old) { flash = (log_state self.new).flash } }
        ensures waits { (log_state self.new).ready ≡ false
            → log_state self.new ≡ record (log_state self.old) { flash = (log_state self.new).flash } }
        ensures ready { OnOk result ((log_state self.new).ready ≡ true) }
        // No slot is passed over, and until power-on none is taken again.
        ensures same_next { SameNext F.SLOTS (log_state self.old) (log_state self.new) }
        ensures tried { (log_state self.new).tried ≡ (log_state self.old).tried }
        // It programs and erases nothing.
        ensures work { (log_state self.new).flash.operations ≡ (log_state self.old).flash.operations }
        ensures erases { (log_state self.new).flash.erases ≡ (log_state self.old).flash.erases }
        ensures raw { (log_state self.new).raw ≡ (log_state self.old).raw }
    {
        if self.dark {
            return Err(DeviceErr::PowerLost);
        }
        match self.log.read(at) {
            Ok(word) => Ok(word),
            Err(DeviceErr::PowerLost) => {
                self.cuts += 1;
                self.dark = true;
                Err(DeviceErr::PowerLost)
            }
            Err(DeviceErr::Fault) => {
                if self.faults == COUNT_END {
                    self.cuts += 1;
                    self.dark = true;
                    return Err(DeviceErr::PowerLost);
                }
                self.faults += 1;
                Err(DeviceErr::Fault)
            }
        }
    }

    #[tactic(auto, unfolding(nvm_board::specs::Facts::IsLostRightly))]
    fn write(&mut self, page: u16, first: u8, words: &[u32]) -> Result<(), DeviceErr>
        requires { FitsPage page first words.now (flash_facts self.old) }
        ensures writes { Writes (address page first) words.now (flash_facts self.old) (flash_facts self.new) result }
        // With the slots outside a move it gives up only after as many Faults of the flash as a record has tries.
        ensures keeps_trying { IsErrOf result DeviceErr.Fault → (n : ℕ) → n + lead_of F.PAGES F.SECTORS < F.SLOTS
            → WillTake F.SLOTS (log_state self.old) n
            → (log_state self.old).flash.faults + TRIES ≤ (log_state self.new).flash.faults }
        // It may give up before that only where a move that goes on, by what the flash shows, or begins anew needs all
        // slots that are left for its steps, or a copy of another page is older.
        ensures gives_up { IsErrOf result DeviceErr.Fault
            → ((log_state self.old).flash.faults + TRIES ≤ (log_state self.new).flash.faults)
            ⊎ GivesUp F.PAGES F.SLOTS F.SECTORS F.sector_start page (log_state self.new) }
        ensures work { Costs (2 * F.PAGES + 40 + F.SECTORS) 2 (log_state self.old).flash (log_state self.new).flash }
        // In pace a write is short, and longer only by two programs for each Fault of the flash. Out of pace one
        // without a Fault is short too, or is in pace behind it.
        ensures pause { (extra : ℕ) → IsRoomy F.PAGES F.SLOTS F.SECTORS
            (extra + failed_since (log_state self.old).flash (log_state self.new).flash)
            → Pauses 37 2 (log_state self.old).flash (log_state self.new).flash
            (StandsInPace F.PAGES F.SLOTS F.SECTORS F.sector_start extra (log_state self.old))
            (((log_state self.new).paced ≡ true) × ((log_state self.new).extra
            ≤ extra + failed_since (log_state self.old).flash (log_state self.new).flash)) result }
        // While more free slots are known than a move begins at, and the flash doesn't fail, it takes one of them, and
        // erases nothing.
        ensures calm { lead_of F.PAGES F.SECTORS < (log_state self.old).free
            → (log_state self.new).flash.faults ≡ (log_state self.old).flash.faults
            → TakesSlot (log_state self.old).flash (log_state self.new).flash ((log_state self.old).paced ≡ true)
            (log_state self.old).free (log_state self.new).free result }
        // As long as no step of a move is due, the tries take the next slots: at most one, and one for each Fault.
        ensures slots { (n : ℕ) → n + lead_of F.PAGES F.SECTORS
            + ((log_state self.new).flash.faults - (log_state self.old).flash.faults) < F.SLOTS
            → WillTake F.SLOTS (log_state self.old) n
            → TakesInTurn F.SLOTS n (1 + ((log_state self.new).flash.faults - (log_state self.old).flash.faults))
            (log_state self.old) (log_state self.new) }
        // In pace, while pages don't move, a due step is taken: no slot of the tries goes to one that is left out.
        ensures steps { OnOk result ((extra : ℕ) → IsRoomy F.PAGES F.SLOTS F.SECTORS extra
            → (log_state self.new).flash.faults ≡ (log_state self.old).flash.faults
            → (log_state self.old).paced ≡ true → (log_state self.old).extra ≤ extra
            → (log_state self.old).free ≤ lead_of F.PAGES F.SECTORS
            → StaysInArea F.SLOTS (log_state self.old).raw (log_state self.new).raw
            → (log_state self.new).left + 1 ≤ (log_state self.old).left) }
        // In pace the next write begins at most one slot later, and one for each Fault, unless the pages move to the
        // other area.
        ensures begins { (extra n : ℕ) → IsRoomy F.PAGES F.SLOTS F.SECTORS
            (extra + failed_since (log_state self.old).flash (log_state self.new).flash)
            → StandsInPace F.PAGES F.SLOTS F.SECTORS F.sector_start extra (log_state self.old)
            → StaysInArea F.SLOTS (log_state self.old).raw (log_state self.new).raw
            → BeginsBy F.SLOTS (log_state self.old) n → BeginsBy F.SLOTS (log_state self.new)
            (n + 1 + ((log_state self.new).flash.faults - (log_state self.old).flash.faults)) }
        // One that returns a Fault passed over no slot but those of Faults.
        ensures passes { IsErrOf result DeviceErr.Fault → (extra n : ℕ) → IsRoomy F.PAGES F.SLOTS F.SECTORS
            (extra + failed_since (log_state self.old).flash (log_state self.new).flash)
            → StandsInPace F.PAGES F.SLOTS F.SECTORS F.sector_start extra (log_state self.old)
            → StaysInArea F.SLOTS (log_state self.old).raw (log_state self.new).raw
            → BeginsBy F.SLOTS (log_state self.old) n → BeginsBy F.SLOTS (log_state self.new)
            (n + ((log_state self.new).flash.faults - (log_state self.old).flash.faults)) }
        // In pace, with so many slots beside those of the steps, fewer than eight, it gives up only behind more Faults
        // than these, or where it passed over fewer slots than it met Faults: one of them was no failed slot. Each try
        // met a Fault, or it passed over more slots than these, or its step isn't taken. Or the pages moved.
        ensures keeps_on { IsErrOf result DeviceErr.Fault → (extra k : ℕ) → k < TRIES
            → IsRoomy F.PAGES F.SLOTS F.SECTORS
            (extra + failed_since (log_state self.old).flash (log_state self.new).flash)
            → (log_state self.old).paced ≡ true → (log_state self.old).extra ≤ extra
            → (log_state self.old).left + k ≤ (log_state self.old).free
            → StaysInArea F.SLOTS (log_state self.old).raw (log_state self.new).raw
            → TriesOn F.PAGES F.SLOTS F.SECTORS F.sector_start page k (log_state self.old) (log_state self.new) }
        // With the slots for all tries each meets one Fault at most.
        ensures tries { (n : ℕ) → n + lead_of F.PAGES F.SECTORS + TRIES ≤ F.SLOTS
            → WillTake F.SLOTS (log_state self.old) n
            → (log_state self.new).flash.faults ≤ (log_state self.old).flash.faults + TRIES }
        // A move in pace leaves all slots free but one for each page and each step, and those of power losses.
        ensures regains { OnOk result ((extra : ℕ) → IsRoomy F.PAGES F.SLOTS F.SECTORS extra
            → (log_state self.new).flash.faults ≡ (log_state self.old).flash.faults
            → (log_state self.old).paced ≡ true → (log_state self.old).extra ≤ extra
            → RegainsSlots F.PAGES F.SLOTS extra (log_state self.old).free (log_state self.new).free
            (log_state self.new).extra) }
        // Behind a power-on too: more than the slots that were free before.
        ensures regains_found { OnOk result ((extra : ℕ) → IsRoomy F.PAGES F.SLOTS F.SECTORS extra
            → (log_state self.new).flash.faults ≡ (log_state self.old).flash.faults
            → StandsInPace F.PAGES F.SLOTS F.SECTORS F.sector_start extra (log_state self.old)
            → (n : ℕ) → FindsFree F.SLOTS (log_state self.old).raw n
            → RegainsSlots F.PAGES F.SLOTS extra n (log_state self.new).free (log_state self.new).extra) }
        // A write that copies no page leaves the flash in pace at every exit, also if it loses power.
        ensures lost { (extra : ℕ) → IsRoomy F.PAGES F.SLOTS F.SECTORS extra
            → (log_state self.new).flash.faults ≡ (log_state self.old).flash.faults
            → StandsInPace F.PAGES F.SLOTS F.SECTORS F.sector_start extra (log_state self.old)
            → CopiesNoPage F.PAGES F.SLOTS F.SECTORS (log_state self.old) (log_state self.new)
            → IsInPace F.PAGES F.SLOTS F.SECTORS F.sector_start (log_state self.new).raw extra }
        // Every write leaves it so, but a power loss and each Fault may take more slots of the other area.
        ensures stands { (extra : ℕ) → IsRoomy F.PAGES F.SLOTS F.SECTORS
            (extra + failed_since (log_state self.old).flash (log_state self.new).flash)
            → StandsInPace F.PAGES F.SLOTS F.SECTORS F.sector_start extra (log_state self.old)
            → StandsInPace F.PAGES F.SLOTS F.SECTORS F.sector_start
            (extra + lost_since (log_state self.old).flash (log_state self.new).flash) (log_state self.new) }
    {
        self.log.stays_in_pace();
        if self.dark {
            return Err(DeviceErr::PowerLost);
        }
        if self.writes == COUNT_END {
            self.cuts += 1;
            self.dark = true;
            return Err(DeviceErr::PowerLost);
        }
        let ended = self.log.write(page, first, words);
        self.log.words_fit();
        match ended {
            Ok(()) => {
                self.writes += 1;
                Ok(())
            }
            Err(DeviceErr::PowerLost) => {
                self.cuts += 1;
                self.dark = true;
                Err(DeviceErr::PowerLost)
            }
            Err(DeviceErr::Fault) => {
                if self.faults == COUNT_END {
                    self.cuts += 1;
                    self.dark = true;
                    return Err(DeviceErr::PowerLost);
                }
                self.faults += 1;
                Err(DeviceErr::Fault)
            }
        }
    }

    #[tactic(auto, unfolding(nvm_board::specs::Facts::IsLostRightly))]
    fn compare(&mut self, secret: u8, kept: &[u8; 8], shown: &[u8; 8]) -> Result<bool, DeviceErr>
        requires { secret < SECRETS }
        ensures compared { Compares secret kept.now shown.now (flash_facts self.old) (flash_facts self.new) result }
        ensures log { log_state self.new ≡ log_state self.old }
    {
        if self.dark {
            return Err(DeviceErr::PowerLost);
        }
        let place = usize::from(secret);
        let equal = are_equal(kept, shown);
        if self.counts_end(place, equal) {
            self.go_dark();
            return Err(DeviceErr::PowerLost);
        }
        self.count(place, equal);
        Ok(equal)
    }

    ghost is_board = { flash_is_board };
}

impl<F: FlashSocket> Socket for FlashBoard<F> {
    ghost use Rattle.nvm_board.specs.Facts.{IsWornOut};
    ghost use Rattle.flash_board.specs.FlashFacts.{flash_facts, log_state};
    ghost use Rattle.flash_moves.specs.Paces.{StandsInPace};

    fn light(&mut self) -> Result<(), WornOut>
        ensures worn { IsErr result ↔ IsWornOut (flash_facts self.old) }
        ensures lit { OnOk result (flash_facts self.new ≡ record (flash_facts self.old) { dark = false }) }
        ensures same { OnErr result (flash_facts self.new ≡ flash_facts self.old) }
        // The log has yet to look for the pages.
        ensures log { OnOk result (log_state self.new ≡ record (log_state self.old) {
          flash = record (log_state self.old).flash { dark = false };
          paced = false;
          extra = 0;
          ready = false;
          tried = 0;
          fresh = true;
          free = 0;
          left = 0;
        }) }
        // A board in pace stays so.
        ensures stands { (extra : ℕ)
            → StandsInPace F.PAGES F.SLOTS F.SECTORS F.sector_start extra (log_state self.old)
            → StandsInPace F.PAGES F.SLOTS F.SECTORS F.sector_start extra (log_state self.new) }
    {
        if self.is_worn_out() {
            return Err(WornOut);
        }
        self.log.light();
        self.dark = false;
        Ok(())
    }

    fn power_off(&mut self)
        ensures off { flash_facts self.new ≡ record (flash_facts self.old) { dark = true } }
        // The flash is without power too.
        ensures log { log_state self.new
            ≡ record (log_state self.old) { flash = record (log_state self.old).flash { dark = true } } }
    {
        self.log.power_off();
        self.dark = true;
    }
}

impl<F: CutFlash> FlashBoard<F> {
    ghost use Rattle.flash_board.specs.FlashFacts.{flash_facts, log_state};

    /// Returns true if power is off.
    pub fn is_dark(&self) -> bool
        ensures { result ≡ (flash_facts self.now).dark }
    {
        self.dark
    }

    /// Returns the number of writes that were counted.
    pub fn write_count(&self) -> u64
        ensures { result ≡ (flash_facts self.now).writes }
    {
        self.writes
    }

    /// Sets program or erase `k` of the flash from now on, counted from 1, to lose power.
    pub fn set_cut(&mut self, k: u32)
        requires { 1 ≤ k }
        ensures facts { flash_facts self.new ≡ record (flash_facts self.old) { due = 1 } }
        ensures log { log_state self.new
            ≡ record (log_state self.old) { flash = record (log_state self.old).flash { due = 1 } } }
    {
        self.log.set_cut(k);
    }

    /// Takes back the power loss that is set, if there is one.
    pub fn clear_cut(&mut self)
        ensures facts { flash_facts self.new ≡ record (flash_facts self.old) { due = 0 } }
        ensures log { log_state self.new
            ≡ record (log_state self.old) { flash = record (log_state self.old).flash { due = 0 } } }
    {
        self.log.clear_cut();
    }

    /// Loses power behind a write, which stays whole.
    pub fn lose_power(&mut self)
        requires { (flash_facts self.old).dark ≡ false }
        ensures facts { flash_facts self.new
            ≡ record (flash_facts self.old) { dark = true; cuts = (flash_facts self.old).cuts + 1 } }
        ensures log { log_state self.new ≡ log_state self.old }
    {
        self.go_dark();
    }

    /// Proves that the board counted no fault.
    pub fn has_no_fault(&self)
        ensures { (flash_facts self.now).faults ≡ 0 }
    {
        self.log.has_no_fault();
    }
}

impl<F: FollowedFlash> FlashBoard<F> {
    ghost use Rattle.flash_board.specs.FlashFollowers.{board_is_kept};

    /// Returns true if the follower of the flash has all its operations, or if there was never one.
    pub fn is_kept(&self) -> bool
        ensures { result ≡ board_is_kept self.now }
    {
        self.log.is_kept()
    }
}

/// Returns true if one of the counts is at its end.
pub fn has_ended(counts: &[u64]) -> bool
    ensures { IsTrue result ↔ Contains counts.now COUNT_END }
{
    counts.contains(&COUNT_END)
}

/// Returns true if two secrets are equal. How long that takes does not depend on their bytes.
pub fn are_equal(kept: &[u8; 8], shown: &[u8; 8]) -> bool
    ensures { IsTrue result ↔ (kept.now ≡ shown.now) }
{
    let mut differences = 0u8;
    for k in 0..8 {
        differences |= kept[k] ^ shown[k];
    }
    differences == 0
}

//! The store: committed and current words on a board.
ghost use Rattle.std.specs.Prelude.{◌≡◌, ◌⊎◌, ◌↔◌, ◌+◌, ◌-◌, ◌<◌, ◌≤◌, if◌then◌else◌, length, IsTrue, IfOk, IfErr};
ghost use Rattle.std.specs.Prelude.{OnOk, OnErr, IsErrOf, Some, true, slice_index, slice_set};
ghost use Rattle.std.specs.Option.{option_or};
ghost use Rattle.std.specs.Result.{result_err};
ghost use Rattle.nvm_board.specs.declared.board.TheConstants.{PAGE_WORDS, SECRETS};
ghost use Rattle.nvm_board.specs.Aims.{AimStays, HasNoFault};
ghost use Rattle.nvm_board.specs.BoardCalls.{CountsMatch};
ghost use Rattle.nvm_board.specs.Facts.{Steady, RisesAt, address, raised, pages_of};
ghost use Rattle.nvm_board.specs.History.{written};
ghost use Rattle.nvm_board.specs.Torn.{Torn};
ghost use Rattle.undo_journal.specs.declared.layout.TheConstants.{PAIRS};
ghost use Rattle.undo_journal.specs.declared.error.StoreErr.TheVariants.{PowerLost};
ghost use Rattle.undo_journal.specs.Undo.{undo, data_words, IsDataAddress, IsDataRun, IsSound};
ghost use Rattle.undo_journal.specs.Spending.{KeepsShut, WritesAtMost, rollback_writes, start_writes};
ghost use Rattle.undo_journal.specs.Commits.{CommitsLast, RisesEarly, StaysShut, TurnedCommits, TurnsGate};
ghost use Rattle.undo_journal.specs.Memory.{committed, current, commit_writes, room, set_writes};
ghost use Rattle.undo_journal.specs.Memory.{store_result_of, taken};
ghost use Rattle.undo_journal.specs.Memory.{EndsAt, ContinuesRun, InRuns, IsIdle, IsOpen, IsReady, Joins, KeepsWords};
ghost use Rattle.undo_journal.specs.Memory.{OpensNot, Reports};

use crate::address::Address;
use crate::batch::{Batch, Waiting, add, finish, waiting_word};
use crate::error::{OpenFault, StoreErr};
use crate::journal::{roll_back, sound_pairs, write_word};
use crate::layout::PAIRS;
use crate::txn::Txn;
use nvm_board::{Armed, Board, DeviceErr, Faultless, has_no_fault};
use std::marker::Model;

/// A store on a board: the committed words and the current words. Power loss or a fault leaves the committed ones.
/// After an error the store has failed: it returns the same error and writes nothing until its board is opened again.
#[derive(Drop)]
pub struct Store<B: Board> {
    board: B,
    failed: Option<StoreErr>,
    batch: Batch,
}

impl<B: Board> Model for Store<B> {
    ghost use Rattle.undo_journal.specs.Memory.{Memory, IsTrueToBoard};

    ghost Value = { Memory };

    ghost view = { λ s. record {
      facts = B.facts s.board;
      failed = s.failed;
      used = s.batch.used;
      waiting = s.batch.waiting.items;
    } };

    ghost invariant = { λ s. IsTrueToBoard (record {
      facts = B.facts s.board;
      failed = s.failed;
      used = s.batch.used;
      waiting = s.batch.waiting.items;
    }) };
}

impl<B: Board> Store<B> {
    ghost use Rattle.undo_journal.specs.Lent.{memory_of, store_of};
    ghost use Rattle.undo_journal.specs.StoreCalls.{OnlyReads, Reads, Changes};

    /// Opens the store of a board and rolls back uncommitted words. On failure it returns the board.
    ///
    /// # Errors
    /// `PowerLost` or `Fault` of the device. `BadJournal` for an invalid journal; then nothing was written.
    pub fn open(mut board: B) -> Result<Store<B>, (B, OpenFault)>
        ensures ready { IfOk result IsReady }
        ensures undone { IfOk result (λ s. s.facts.words ≡ undo (B.facts board).words) }
        ensures found { IfOk result (λ s. committed s ≡ data_words (undo (B.facts board).words)) }
        ensures sound { OnOk result (IsSound (B.facts board).words) }
        ensures defined { IfOk result (λ s. IsSound s.facts.words) }
        ensures light { IfOk result (λ s. Steady (B.facts board) s.facts) }
        ensures shut { IfOk result (λ s. KeepsShut (B.facts board) s.facts) }
        ensures writes { IfOk result (λ s. WritesAtMost (start_writes (B.facts board)) (B.facts board) s.facts) }
        ensures counted { IfOk result (λ s. s.facts.writes ≡ (B.facts board).writes + start_writes (B.facts board)) }

        // A failed open changes neither the words after undo, nor if undo is defined.
        ensures kept_err { IfErr result (λ e. undo (B.facts e.0).words ≡ undo (B.facts board).words) }
        ensures sound_err { IfErr result (λ e. IsSound (B.facts e.0).words ↔ IsSound (B.facts board).words) }
        ensures not_opened { IfErr result (λ e. OpensNot e.1 (B.facts board) (B.facts e.0)) }
        ensures shut_err { IfErr result (λ e. KeepsShut (B.facts board) (B.facts e.0)) }
        ensures writes_err { IfErr result
            (λ e. WritesAtMost (start_writes (B.facts board)) (B.facts board) (B.facts e.0)) }
    {
        let count = match sound_pairs(&mut board) {
            Ok(Some(count)) => count,
            Ok(None) => return Err((board, OpenFault::BadJournal)),
            Err(e) => return Err((board, OpenFault::from(e))),
        };
        match roll_back(&mut board, count) {
            Ok(()) => Ok(Store {
                board,
                failed: None,
                batch: Batch::new(),
            }),
            Err(e) => Err((board, OpenFault::from(e))),
        }
    }

    /// The board, as it is.
    pub fn board(&self) -> &B
        ensures { B.facts result.now ≡ self.now.facts }
    {
        &self.board
    }

    /// How many pages the memory has. No call changes it.
    pub fn pages(&self) -> u16
        ensures committed { result ≡ pages_of (committed self.now) }
        ensures current { result ≡ pages_of (current self.now) }
    {
        self.board.pages()
    }

    /// Returns the current word at an address.
    ///
    /// # Errors
    /// The store's failure: power was lost, or the device failed, in this call or in an earlier one.
    pub fn read(&mut self, at: u16) -> Result<u32, StoreErr>
        requires { IsDataAddress (current self.old) at }
        ensures word { IfOk result (λ w. w ≡ slice_index (current self.old) at) }
        ensures usable { OnOk result (IsOpen self.new) }
        ensures reads { OnlyReads self.old self.new }
        ensures store { IsIdle self.old → Reads self.old self.new (result_err result) }
        ensures tells { self.new.failed ≡ result_err result }
        ensures dark { IsErrOf result PowerLost → self.new.facts.dark ≡ true }
    {
        self.check()?;
        if let Some(word) = waiting_word(&self.batch.waiting, at) {
            return Ok(word);
        }
        let answer = self.board.read(at);
        noted(&mut self.failed, answer)
    }

    /// Returns the word at an address of a store that is ready. Then no set waits and no call has failed, so one
    /// device read is enough. Power-on reads hundreds of words in this way.
    ///
    /// # Errors
    /// The device's error: power was lost, or the device failed.
    pub fn read_committed(&mut self, at: u16) -> Result<u32, StoreErr>
        requires ready { IsReady self.old }
        requires place { IsDataAddress (committed self.old) at }
        ensures word { IfOk result (λ w. w ≡ slice_index (committed self.old) at) }
        ensures store { Reads self.old self.new (result_err result) }
    {
        let told = self.board.read(at);
        noted(&mut self.failed, told)
    }

    /// Begins a transaction.
    pub fn begin(&mut self) -> Txn<'_, B>
        requires { IsIdle self.old }
        ensures same_store { (store_of result).ghost_name ≡ self.entry.ghost_name }
        ensures same { memory_of result ≡ self.old }
        ensures room { room (memory_of result) ≡ PAIRS }
    {
        Txn { store: self }
    }

    /// Commits one word, in one device write.
    ///
    /// # Errors
    /// The store's failure: power was lost, or the device failed, in this call or in an earlier one.
    pub fn put_alone(&mut self, at: u16, word: u32) -> Result<(), StoreErr>
        requires idle { IsIdle self.old }
        requires place { IsDataAddress (current self.old) at }
        ensures any_exit { (committed self.new ≡ committed self.old)
            ⊎ (committed self.new ≡ slice_set (committed self.old) at word) }
        ensures done { OnOk result (committed self.new ≡ slice_set (committed self.old) at word) }
        ensures shut { StaysShut self.old self.new }
        ensures store { Changes 1 self.old self.new (result_err result) }
        ensures dark { IsErrOf result PowerLost → self.new.facts.dark ≡ true }
        ensures counted { OnOk result (self.new.facts.writes ≡ self.old.facts.writes + 1) }
        ensures between { CommitsLast self.old.facts self.new.facts }
    {
        self.check()?;
        let answer = write_word(&mut self.board, Address { number: at }, word);
        noted(&mut self.failed, answer)
    }

    /// Writes 1 to 16 words of one page without undo. It takes one device write. After an error each of them is old
    /// or new, independently of the others.
    ///
    /// # Errors
    /// The store's failure: power was lost, or the device failed, in this call or in an earlier one.
    #[inline(always)]
    pub fn write_plain(&mut self, page: u16, first: u8, words: &[u32]) -> Result<(), StoreErr>
        requires idle { IsIdle self.old }
        requires some { 0 < length words.now }
        requires run { first + length words.now ≤ PAGE_WORDS }
        requires place { IsDataRun (current self.old) (address page first) (length words.now) }
        ensures any_exit { Torn (committed self.old) (address page first) words.now (committed self.new) }
        ensures done { OnOk result (committed self.new ≡ written (committed self.old) (address page first) words.now) }
        ensures shut { StaysShut self.old self.new }
        ensures store { Changes 1 self.old self.new (result_err result) }
        ensures counted { OnOk result (self.new.facts.writes ≡ self.old.facts.writes + 1) }
        ensures dark { IsErrOf result PowerLost → self.new.facts.dark ≡ true }
    {
        self.check()?;
        let answer = self.board.write(page, first, words);
        noted(&mut self.failed, answer)
    }

    /// Passes a comparison on to the board, and writes nothing.
    ///
    /// # Errors
    /// The store's failure: power was lost, or the device failed, in this call or in an earlier one.
    pub fn compare(&mut self, secret: u8, kept: &[u8; 8], shown: &[u8; 8]) -> Result<bool, StoreErr>
        requires { secret < SECRETS }
        ensures equal { IfOk result (λ e. IsTrue e ↔ (kept.now ≡ shown.now)) }
        ensures keeps { KeepsWords self.old self.new }
        ensures words { self.new.facts.words ≡ self.old.facts.words }
        ensures usable { OnOk result (IsOpen self.new) }
        ensures ready { OnOk result (IsIdle self.old → IsReady self.new) }
        ensures reports { Reports self.old self.new }
        ensures tells { self.new.failed ≡ result_err result }
        ensures dark { IsErrOf result PowerLost → self.new.facts.dark ≡ true }
        ensures writes { self.new.facts.writes ≡ self.old.facts.writes }
        ensures cut { AimStays self.old.facts self.new.facts }

        // Only the comparison and the match are counted.
        ensures compared { OnOk result (self.new.facts.compares ≡ raised self.old.facts.compares secret) }
        ensures compared_err { OnErr result (RisesAt self.old.facts.compares secret self.new.facts.compares) }
        ensures matched { IfOk result (λ e. self.new.facts.matches ≡
            (if e then raised self.old.facts.matches secret else self.old.facts.matches)) }
        ensures matched_err { OnErr result ((self.new.facts.matches ≡ self.old.facts.matches)
            ⊎ CountsMatch secret kept.now shown.now self.old.facts self.new.facts) }
    {
        self.check()?;
        let answer = self.board.compare(secret, kept, shown);
        noted(&mut self.failed, answer)
    }

    /// Returns a second store in the same state, on a board that differs in its log at most.
    pub fn twin(&self, board: B) -> Store<B>
        requires { B.facts board ≡ record self.now.facts { log = (B.facts board).log } }
        ensures { result ≡ record self.now { facts = B.facts board } }
    {
        Store {
            board,
            failed: self.failed,
            batch: self.batch.twin(),
        }
    }

    /// Returns the board as it is.
    pub fn into_board(self) -> B
        ensures { B.facts result ≡ self.facts }
    {
        let Store {
            board,
            failed: _,
            batch: _,
        } = self;
        board
    }

    /// Returns the store's failure, if it has failed.
    pub(crate) fn check(&self) -> Result<(), StoreErr>
        ensures ready { OnOk result (IsOpen self.now) }
        ensures tells { self.now.failed ≡ result_err result }
        ensures dark { IsErrOf result PowerLost → self.now.facts.dark ≡ true }
    {
        match self.failed {
            Some(e) => Err(e),
            None => Ok(()),
        }
    }

    /// Returns the number of further sets that fit in the journal.
    pub(crate) fn room(&self) -> usize
        ensures { result ≡ room self.now }
    {
        usize::from(PAIRS).saturating_sub(usize::from(self.batch.used) + self.batch.waiting.len())
    }

    /// Sets the current word at an address, in a transaction.
    pub(crate) fn set(&mut self, at: u16, word: u32) -> Result<(), StoreErr>
        requires room { 0 < room self.old }
        requires place { IsDataAddress (current self.old) at }
        ensures kept { committed self.new ≡ committed self.old }
        ensures done { OnOk result (current self.new ≡ slice_set (current self.old) at word) }
        ensures room { room self.old ≤ room self.new + 1 }
        ensures taken { taken self.new ≤ taken self.old + 1 }
        ensures ready { OnOk result (IsOpen self.new) }
        ensures reports { Reports self.old self.new }
        ensures tells { self.new.failed ≡ result_err result }
        ensures dark { IsErrOf result PowerLost → self.new.facts.dark ≡ true }
        ensures runs { InRuns 1 self.old self.new }
        ensures goes_on { ContinuesRun self.old at → InRuns 0 self.old self.new }
        ensures next { OnOk result (EndsAt self.new at) }
        ensures spends { WritesAtMost (set_writes (record { at = at; word = word }) self.old)
            self.old.facts self.new.facts }
        ensures joins { OnOk result (Joins (record { at = at; word = word }) self.old self.new) }
        ensures rises { RisesEarly self.old self.new }
        ensures between { CommitsLast self.old.facts self.new.facts }
    {
        self.check()?;
        let answer = add(&mut self.board, &mut self.batch, Waiting { at, word });
        noted(&mut self.failed, answer)
    }

    /// Commits the current words. It writes the waiting sets, then turns the gate to 0. The gate's write alone is the
    /// commit.
    pub(crate) fn commit(&mut self) -> Result<(), StoreErr>
        ensures any_exit { (committed self.new ≡ committed self.old)
            ⊎ ((committed self.new ≡ current self.old) × TurnsGate (committed self.old) self.new) }
        ensures turned { TurnedCommits self.old self.new }
        ensures last { (committed self.new ≡ committed self.old)
            ⊎ (self.old.facts.writes + commit_writes self.old ≤ self.new.facts.writes + 1) }
        ensures done { OnOk result (committed self.new ≡ current self.old) }
        ensures store { Changes (commit_writes self.old) self.old self.new (result_err result) }
        ensures counted { OnOk result (self.new.facts.writes ≡ self.old.facts.writes + commit_writes self.old) }
        ensures dark { IsErrOf result PowerLost → self.new.facts.dark ≡ true }
        ensures between { CommitsLast self.old.facts self.new.facts }
    {
        match self.check() {
            Ok(()) => {
                let answer = finish(&mut self.board, &mut self.batch);
                self.batch = Batch::new();
                noted(&mut self.failed, answer)
            }
            Err(e) => {
                // The transaction is over even if the store has failed.
                self.batch = Batch::new();
                Err(e)
            }
        }
    }

    /// Makes the committed words the current ones again.
    pub(crate) fn abandon(&mut self) -> Result<(), StoreErr>
        ensures kept { committed self.new ≡ committed self.old }
        ensures done { OnOk result (current self.new ≡ committed self.old) }
        ensures store { Changes (rollback_writes self.old.used) self.old self.new (result_err result) }
        ensures counted { OnOk result (self.new.facts.writes ≡ self.old.facts.writes + rollback_writes self.old.used) }
        ensures dark { IsErrOf result PowerLost → self.new.facts.dark ≡ true }
        ensures between { CommitsLast self.old.facts self.new.facts }
    {
        let checked = self.check();
        // The transaction is over even if the store has failed.
        let count = self.batch.used;
        self.batch = Batch::new();
        checked?;
        let answer = roll_back(&mut self.board, count);
        noted(&mut self.failed, answer)
    }
}

impl<B: Armed> Store<B> {
    /// Sets a cut or a fault at a later write (`Armed::arm`).
    pub fn arm(&mut self, k: u32, mask: u16)
        requires { 1 ≤ k }
        ensures due { self.new.facts.due ≤ 1 }
        ensures same { self.new ≡ record self.old {
          facts = record self.old.facts {
            due = self.new.facts.due;
            pending = Some record { whole_writes = k - 1; mask = mask };
          };
        } }
        ensures keeps { KeepsWords self.old self.new }
        ensures ready { IsReady self.old → IsReady self.new }
    {
        self.board.arm(k, mask);
    }
}

impl<B: Faultless> Store<B> {
    /// Proves that no fault is counted. A cut is due if and only if one is set.
    pub fn has_no_fault(&self)
        ensures { HasNoFault self.now.facts }
    {
        has_no_fault(&self.board);
    }
}

/// Returns the device's result with a store error. An error becomes the store's failure.
fn noted<T>(failed: &mut Option<StoreErr>, answer: Result<T, DeviceErr>) -> Result<T, StoreErr>
    ensures answer { result ≡ store_result_of answer }
    ensures failed { failed.new ≡ option_or (result_err result) failed.old }
{
    match answer {
        Ok(value) => Ok(value),
        Err(e) => {
            let error = StoreErr::from(e);
            *failed = Some(error);
            Err(error)
        }
    }
}

//! Transactions.
ghost use Rattle.std.specs.Prelude.{◌≡◌, ◌⊎◌, ◌+◌, ◌*◌, ◌<◌, ◌≤◌, length, IfOk, OnOk, IsErrOf, IsOk, None, Some};
ghost use Rattle.std.specs.Prelude.{true, slice_index, slice_set};
ghost use Rattle.std.specs.Result.{result_err};
ghost use Rattle.nvm_board.specs.History.{written};
ghost use Rattle.undo_journal.specs.declared.error.StoreErr.TheVariants.{PowerLost};
ghost use Rattle.undo_journal.specs.Commits.{CommitsLast, TurnedCommits, TurnsGate};
ghost use Rattle.undo_journal.specs.Endings.{ended, end_writes};
ghost use Rattle.undo_journal.specs.Undo.{IsDataAddress, IsDataRun};
ghost use Rattle.undo_journal.specs.Spending.{rollback_writes, WritesAtMost};
ghost use Rattle.undo_journal.specs.Batches.{joined_run, touched_pages};
ghost use Rattle.undo_journal.specs.declared.batch.TheConstants.{BATCH};
ghost use Rattle.undo_journal.specs.Memory.{committed, current, commit_writes, room, set_writes, EndsAt, ContinuesRun};
ghost use Rattle.undo_journal.specs.Memory.{InRuns, Joins, Waits};

use crate::error::StoreErr;
use crate::store::Store;
use nvm_board::Board;

/// A transaction on a store. `commit` makes all its sets permanent, `abandon` none of them. It must end with one of
/// these, or with `end`, which chooses by the result of the work.
pub struct Txn<'a, B: Board> {
    pub(crate) store: &'a mut Store<B>,
}

impl<B: Board> Txn<'_, B> {
    ghost use Rattle.undo_journal.specs.Lent.{memory_of};
    ghost use Rattle.undo_journal.specs.StoreCalls.{Changes, ReadsIn, SetsIn};

    /// Returns the number of further sets that fit in the journal.
    pub fn room(&self) -> usize
        ensures { result ≡ room (memory_of self.now) }
    {
        self.store.room()
    }

    /// Returns the current word at an address.
    ///
    /// # Errors
    /// The store's failure: power was lost, or the device failed, in this call or in an earlier one.
    pub fn read(&mut self, at: u16) -> Result<u32, StoreErr>
        requires { IsDataAddress (current (memory_of self.old)) at }
        ensures word { IfOk result (λ w. w ≡ slice_index (current (memory_of self.old)) at) }
        ensures store { ReadsIn self.old self.new (result_err result) }
        ensures dark { IsErrOf result PowerLost → (memory_of self.new).facts.dark ≡ true }
    {
        self.store.read(at)
    }

    /// Sets the current word at an address. The set waits until eight sets do, or until the commit. They are then
    /// written together: one device write for their pairs, one for the gate, and one for each run of words. An
    /// abandon drops waiting sets.
    ///
    /// # Errors
    /// The store's failure: power was lost, or the device failed, in this call or in an earlier one.
    pub fn set(&mut self, at: u16, word: u32) -> Result<(), StoreErr>
        requires room { 0 < room (memory_of self.old) }
        requires place { IsDataAddress (current (memory_of self.old)) at }
        ensures done { OnOk result (current (memory_of self.new) ≡ slice_set (current (memory_of self.old)) at word) }
        ensures store { SetsIn 1 self.old self.new (result_err result) }
        ensures goes_on { ContinuesRun (memory_of self.old) at → InRuns 0 (memory_of self.old) (memory_of self.new) }
        ensures next { OnOk result (EndsAt (memory_of self.new) at) }
        ensures spends { WritesAtMost (set_writes (record { at = at; word = word }) (memory_of self.old))
            (memory_of self.old).facts (memory_of self.new).facts }
        ensures joins { OnOk result
            (Joins (record { at = at; word = word }) (memory_of self.old) (memory_of self.new)) }
        ensures dark { IsErrOf result PowerLost → (memory_of self.new).facts.dark ≡ true }
    {
        self.store.set(at, word)
    }

    /// Sets the words from an address on. They lie in one run per page.
    ///
    /// # Errors
    /// The store's failure: power was lost, or the device failed, in this call or in an earlier one.
    pub fn set_run(&mut self, at: u16, words: &[u32]) -> Result<(), StoreErr>
        requires room { length words.now ≤ room (memory_of self.old) }
        requires place { IsDataRun (current (memory_of self.old)) at (length words.now) }
        ensures done { OnOk result
            (current (memory_of self.new) ≡ written (current (memory_of self.old)) at words.now) }
        ensures store { SetsIn (length words.now) self.old self.new (result_err result) }
        ensures runs { InRuns (touched_pages at (length words.now)) (memory_of self.old) (memory_of self.new) }
        ensures waits { OnOk result (length (memory_of self.old).waiting + length words.now < BATCH
            → Waits (joined_run at words.now (memory_of self.old).waiting) (memory_of self.old) (memory_of self.new)) }
        ensures dark { IsErrOf result PowerLost → (memory_of self.new).facts.dark ≡ true }
    {
        self.store.check()?;
        for (i, word) in words.iter().enumerate() {
            self.set(at + i as u16, *word)?;
        }
        Ok(())
    }

    /// Makes the current words permanent. It writes the waiting sets, then turns the gate to 0 in one device write.
    /// Before that write, recovery restores the committed words; after it, the new words are committed. Without a set
    /// it writes nothing.
    ///
    /// # Errors
    /// The store's failure: power was lost, or the device failed, in this call or in an earlier one.
    pub fn commit(self) -> Result<(), StoreErr>
        ensures any_exit { (committed self.exit.0.now ≡ committed (memory_of self.entry))
            ⊎ ((committed self.exit.0.now ≡ current (memory_of self.entry))
            × TurnsGate (committed (memory_of self.entry)) self.exit.0.now) }
        // Once the gate has turned to 0 these words stand.
        ensures turned { TurnedCommits (memory_of self.entry) self.exit.0.now }
        // Other words are committed by its last write alone.
        ensures last { (committed self.exit.0.now ≡ committed (memory_of self.entry))
            ⊎ ((memory_of self.entry).facts.writes + commit_writes (memory_of self.entry)
            ≤ self.exit.0.now.facts.writes + 1) }
        ensures done { OnOk result (committed self.exit.0.now ≡ current (memory_of self.entry)) }
        ensures store { Changes (commit_writes (memory_of self.entry)) (memory_of self.entry)
            self.exit.0.now (result_err result) }
        ensures counted { OnOk result (self.exit.0.now.facts.writes
            ≡ (memory_of self.entry).facts.writes + commit_writes (memory_of self.entry)) }
        ensures dark { IsErrOf result PowerLost → self.exit.0.now.facts.dark ≡ true }
    {
        let Txn { store } = self;
        store.commit()
    }

    /// Rolls the transaction back. It drops the waiting sets, writes back the earlier words, last pair first, and
    /// then the gate. If no batch was written it writes nothing.
    ///
    /// # Errors
    /// The store's failure: power was lost, or the device failed, in this call or in an earlier one.
    pub fn abandon(self) -> Result<(), StoreErr>
        ensures kept { committed self.exit.0.now ≡ committed (memory_of self.entry) }
        ensures done { OnOk result (current self.exit.0.now ≡ committed (memory_of self.entry)) }
        ensures store { Changes (rollback_writes (memory_of self.entry).used) (memory_of self.entry) self.exit.0.now
            (result_err result) }
        ensures counted { OnOk result (self.exit.0.now.facts.writes
            ≡ (memory_of self.entry).facts.writes + rollback_writes (memory_of self.entry).used) }
        ensures dark { IsErrOf result PowerLost → self.exit.0.now.facts.dark ≡ true }
    {
        let Txn { store } = self;
        store.abandon()
    }

    /// Ends the transaction by the result of the work. It commits after success and abandons after an error. Then it
    /// returns the work's error, even if the rollback failed.
    ///
    /// # Errors
    /// The work's error, or the store's failure in the commit: power was lost, or the device failed, in this call or
    /// in an earlier one.
    pub fn end(self, work: Result<(), StoreErr>) -> Result<(), StoreErr>
        ensures any_exit { (committed self.exit.0.now ≡ committed (memory_of self.entry))
            ⊎ (IsOk work × (committed self.exit.0.now ≡ current (memory_of self.entry))
            × TurnsGate (committed (memory_of self.entry)) self.exit.0.now) }
        ensures turned { IsOk work → TurnedCommits (memory_of self.entry) self.exit.0.now }
        ensures last { (committed self.exit.0.now ≡ committed (memory_of self.entry))
            ⊎ ((memory_of self.entry).facts.writes + commit_writes (memory_of self.entry)
            ≤ self.exit.0.now.facts.writes + 1) }
        ensures done { OnOk result (committed self.exit.0.now ≡ current (memory_of self.entry)) }
        ensures answered { result ≡ ended work self.exit.0.now.failed }
        ensures store { Changes (end_writes work (memory_of self.entry)) (memory_of self.entry) self.exit.0.now
            self.exit.0.now.failed }
        ensures counted { self.exit.0.now.failed ≡ None → self.exit.0.now.facts.writes
            ≡ (memory_of self.entry).facts.writes + end_writes work (memory_of self.entry) }
        ensures dark { self.exit.0.now.failed ≡ Some PowerLost → self.exit.0.now.facts.dark ≡ true }
        ensures between { CommitsLast (memory_of self.entry).facts self.exit.0.now.facts }
    {
        let Txn { store } = self;
        match work {
            Ok(()) => store.commit(),
            Err(e) => {
                // The work's error is returned, whatever the rollback does.
                let _ = store.abandon();
                Err(e)
            }
        }
    }
}

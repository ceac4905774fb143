//! The waiting sets of a transaction, which are written in batches of eight.
ghost use Rattle.std.specs.Prelude.{◌≡◌, ◌⊎◌, ◌↔◌, ◌+◌, ◌-◌, ◌*◌, ◌<◌, ◌≤◌, ◌%◌, ◌==◌, ◌&&◌, not, ℕ, [], length, take};
ghost use Rattle.std.specs.Prelude.{drop, false, IsTrue, IfOk, OnOk, slice_set};
ghost use Rattle.arrayvec.specs.ArrayVec.{array_vec_len};
ghost use Rattle.nvm_board.specs.Facts.{Answered};
ghost use Rattle.nvm_board.specs.History.{written};
ghost use Rattle.nvm_board.specs.Torn.{Torn};
ghost use Rattle.undo_journal.specs.declared.batch.TheConstants.{BATCH};
ghost use Rattle.undo_journal.specs.declared.layout.TheConstants.{JOURNAL, PAIRS};
ghost use Rattle.undo_journal.specs.Undo.{gate, pairs, undo, data_words, IsDataAddress, IsSound};
ghost use Rattle.undo_journal.specs.Commits.{CommitsLast, TurnsGate};
ghost use Rattle.undo_journal.specs.Spending.{WritesAtMost, KeepsBoard};
ghost use Rattle.undo_journal.specs.Batches.{overlay, look_up, batch_writes, runs_from, AreSets, with_set};
ghost use Rattle.undo_journal.specs.JournalParts.{before, first_words, pair_words, AllNamed, IsLastBelow};
ghost use Rattle.undo_journal.specs.laws.Waits.{AreAscending};
ghost use Rattle.undo_journal.specs.Memory.{commit_writes, set_writes, EndsAt, ContinuesRun, InRuns, IsHeld, Joins};
ghost use Rattle.undo_journal.specs.BatchParts.{working};

use crate::address::Address;
use crate::journal::{write_gate, write_pairs};
use arrayvec::ArrayVec;
use nvm_board::{Board, DeviceErr, PAGE_WORDS};

/// The number of sets in a batch.
pub const BATCH: u16 = 8;

const BATCH_SETS: usize = BATCH as usize;

const BATCH_PAIR_WORDS: usize = 2 * BATCH_SETS;

/// A waiting set: a data word's address and the new word.
#[derive(Clone, Copy, Default)]
pub struct Waiting {
    pub at: u16,
    pub word: u32,
}

type Sets = ArrayVec<Waiting, BATCH_SETS>;

/// The pairs in use and the waiting sets, by ascending address.
#[derive(Drop)]
pub(crate) struct Batch {
    pub(crate) used: u16,
    pub(crate) waiting: Sets,
}

impl Batch {
    /// Returns an empty batch with no pair in use.
    pub(crate) fn new() -> Batch
        ensures used { result.used ≡ 0 }
        ensures waiting { result.waiting.items ≡ [] }
    {
        Batch {
            used: 0,
            waiting: ArrayVec::new(),
        }
    }

    /// Returns a second batch with the same sets.
    pub(crate) fn twin(&self) -> Batch
        ensures used { result.used ≡ self.now.used }
        ensures waiting { result.waiting.items ≡ self.now.waiting.items }
    {
        let mut waiting = Sets::new();
        waiting
            .try_extend_from_slice(self.waiting.as_slice())
            .unwrap();
        Batch {
            used: self.used,
            waiting,
        }
    }
}

/// Returns the waiting word for an address, if there is one.
pub(crate) fn waiting_word(sets: &[Waiting], at: u16) -> Option<u32>
    ensures { result ≡ look_up at sets.now }
{
    for set in sets {
        if set.at == at {
            return Some(set.word);
        }
    }
    None
}

/// Returns the number of leading sets with smaller addresses.
fn place_of(sets: &[Waiting], at: u16) -> usize
    ensures { result ≡ before at sets.now }
{
    let mut place = 0;
    while place < sets.len() && sets[place].at < at {
        place += 1;
    }
    place
}

/// An address is above those of all sets, which ascend: the last one tells.
fn is_behind(sets: &[Waiting], at: u16) -> bool
    ensures { IsTrue result → IsLastBelow at sets.now }
{
    let count = sets.len();
    if count == 0 {
        return true;
    }
    sets[count - 1].at < at
}

/// Puts a set among those that wait, in place of one of its address, or else at its place in the order.
/// Words are mostly set by ascending addresses, so the end is tried first.
fn join(sets: &mut Sets, new: Waiting)
    requires room { array_vec_len sets.old < BATCH }
    requires sorted { AreAscending 0 sets.old.items }
    ensures { sets.new.items ≡ with_set new sets.old.items }
{
    if is_behind(sets, new.at) {
        sets.push(new);
        return;
    }
    let place = place_of(sets, new.at);
    if place < sets.len() && sets[place].at == new.at {
        sets[place] = new;
    } else {
        sets.insert(place, new);
    }
}

/// Returns the words of the first run. A run has successive addresses in one page.
fn first_run(sets: &[Waiting]) -> ArrayVec<u32, BATCH_SETS>
    requires some { 0 < length sets.now }
    requires few { length sets.now ≤ BATCH }
    ensures { result.items ≡ first_words sets.now }
{
    let first = sets[0];
    let mut words = ArrayVec::new();
    words.push(first.word);
    while words.len() < sets.len() && goes_on(first.at, words.len() as u32, sets[words.len()].at) {
        let word = sets[words.len()].word;
        words.push(word);
    }
    words
}

/// Returns true if an address continues a run from `first` on. The run has `run` words so far. The sum is computed in
/// 32 bits, since the address after the last one doesn't fit in 16.
fn goes_on(first: u16, run: u32, at: u16) -> bool
    requires { run ≤ BATCH }
    ensures { result ≡ ((at == first + run) && not (at % PAGE_WORDS == 0)) }
{
    u32::from(at) == u32::from(first) + run && at % PAGE_WORDS != 0
}

/// Reads the pairs of the sets, as words of the journal. A pair is the address and the present word.
fn saved_pairs<B: Board>(
    board: &mut B,
    sets: &[Waiting],
) -> Result<ArrayVec<u32, BATCH_PAIR_WORDS>, DeviceErr>
    requires lit { (B.facts board.old).dark ≡ false }
    requires few { length sets.now ≤ BATCH }
    requires sets { AreSets (length (B.facts board.old).words) 0 sets.now }
    ensures words { IfOk result (λ v. v.items ≡ pair_words (B.facts board.old).words sets.now) }
    ensures light { Answered (B.facts board.old) (B.facts board.new) result }
    ensures reads { KeepsBoard (B.facts board.old) (B.facts board.new) }
{
    let mut words = ArrayVec::new();
    for set in sets {
        let earlier = board.read(set.at)?;
        words.push(u32::from(set.at));
        words.push(earlier);
    }
    Ok(words)
}

/// Writes the words of sets that have pairs, run by run. Each run takes one device write.
fn write_words<B: Board>(board: &mut B, sets: &[Waiting]) -> Result<(), DeviceErr>
    requires lit { (B.facts board.old).dark ≡ false }
    requires few { length sets.now ≤ BATCH }
    requires sets { AreSets (length (B.facts board.old).words) 0 sets.now }
    requires sound { IsSound (B.facts board.old).words }
    requires named { AllNamed (pairs (B.facts board.old).words) sets.now }
    ensures kept { data_words (undo (B.facts board.new).words) ≡ data_words (undo (B.facts board.old).words) }
    ensures sound { IsSound (B.facts board.new).words }
    ensures counts { gate (B.facts board.new).words ≡ gate (B.facts board.old).words }
    ensures done { OnOk result ((B.facts board.new).words ≡ overlay sets.now (B.facts board.old).words) }
    ensures light { Answered (B.facts board.old) (B.facts board.new) result }
    ensures counted { OnOk result ((B.facts board.new).writes ≡ (B.facts board.old).writes + runs_from 0 sets.now) }
    ensures writes { WritesAtMost (runs_from 0 sets.now) (B.facts board.old) (B.facts board.new) }
    ensures between { CommitsLast (B.facts board.old) (B.facts board.new) }
{
    let mut rest = sets;
    while !rest.is_empty() {
        let run = first_run(rest);
        let at = Address { number: rest[0].at };
        let (page, place) = at.page_and_place();
        board.write(page, place, &run)?;
        let (_, after) = rest.split_at(run.len());
        rest = after;
    }
    Ok(())
}

/// Writes a batch: first its pairs, then the gate, then its words.
fn save_and_write<B: Board>(board: &mut B, used: u16, sets: &[Waiting]) -> Result<(), DeviceErr>
    requires lit { (B.facts board.old).dark ≡ false }
    requires sound { IsSound (B.facts board.old).words }
    requires counts { gate (B.facts board.old).words ≡ used }
    requires whole { used % BATCH ≡ 0 }
    requires some { 0 < length sets.now }
    requires few { length sets.now ≤ BATCH }
    requires room { used + length sets.now ≤ PAIRS }
    requires sets { AreSets (length (B.facts board.old).words) 0 sets.now }
    ensures kept { data_words (undo (B.facts board.new).words) ≡ data_words (undo (B.facts board.old).words) }
    ensures done { OnOk result (data_words (B.facts board.new).words
        ≡ data_words (overlay sets.now (B.facts board.old).words)) }
    ensures sound { IsSound (B.facts board.new).words }
    ensures counts { OnOk result (gate (B.facts board.new).words ≡ used + length sets.now) }
    ensures light { Answered (B.facts board.old) (B.facts board.new) result }
    ensures turned { gate (B.facts board.new).words ≡ 0
        → (used ≡ 0) × ((B.facts board.new).writes ≤ (B.facts board.old).writes + 2) }
    ensures counted { OnOk result ((B.facts board.new).writes ≡ (B.facts board.old).writes + batch_writes sets.now) }
    ensures writes { WritesAtMost (batch_writes sets.now) (B.facts board.old) (B.facts board.new) }
    ensures between { CommitsLast (B.facts board.old) (B.facts board.new) }
{
    let pairs = saved_pairs(board, sets)?;
    write_pairs(board, used, &pairs)?;
    write_gate(board, used + sets.len() as u16)?;
    write_words(board, sets)
}

/// Writes the waiting sets, if any. Afterwards none waits, and their pairs are in use, even after an error: the gate
/// may already count them.
fn flush<B: Board>(board: &mut B, batch: &mut Batch) -> Result<(), DeviceErr>
    requires lit { (B.facts board.old).dark ≡ false }
    requires sound { IsSound (B.facts board.old).words }
    requires counts { gate (B.facts board.old).words ≡ batch.old.used }
    requires whole { batch.old.used % BATCH ≡ 0 }
    requires few { array_vec_len batch.old.waiting ≤ BATCH }
    requires room { batch.old.used + array_vec_len batch.old.waiting ≤ PAIRS }
    requires sets { AreSets (length (B.facts board.old).words) 0 batch.old.waiting.items }
    ensures kept { data_words (undo (B.facts board.new).words) ≡ data_words (undo (B.facts board.old).words) }
    ensures done { OnOk result (data_words (B.facts board.new).words
        ≡ data_words (overlay batch.old.waiting.items (B.facts board.old).words)) }
    ensures sound { IsSound (B.facts board.new).words }
    ensures counts { OnOk result (gate (B.facts board.new).words ≡ batch.new.used) }
    ensures light { Answered (B.facts board.old) (B.facts board.new) result }
    ensures counted { OnOk result ((B.facts board.new).writes
        ≡ (B.facts board.old).writes + batch_writes batch.old.waiting.items) }
    ensures writes { WritesAtMost (batch_writes batch.old.waiting.items) (B.facts board.old) (B.facts board.new) }
    ensures between { CommitsLast (B.facts board.old) (B.facts board.new) }
    ensures turned { gate (B.facts board.new).words ≡ 0
        → (batch.old.used ≡ 0) × ((B.facts board.new).writes ≤ (B.facts board.old).writes + 2) }
    ensures used { batch.new.used ≡ batch.old.used + array_vec_len batch.old.waiting }
    ensures empty { batch.new.waiting.items ≡ [] }
{
    if batch.waiting.is_empty() {
        return Ok(());
    }
    let used = batch.used;
    batch.used += batch.waiting.len() as u16;
    let answer = save_and_write(board, used, &batch.waiting);
    batch.waiting.clear();
    answer
}

/// Adds a set to the waiting ones. A full batch is written at once.
pub(crate) fn add<B: Board>(board: &mut B, batch: &mut Batch, new: Waiting) -> Result<(), DeviceErr>
    requires held { IsHeld (B.facts board.old) batch.old.used batch.old.waiting.items }
    requires room { batch.old.used + array_vec_len batch.old.waiting < PAIRS }
    requires place { IsDataAddress (B.facts board.old).words new.at }
    ensures kept { data_words (undo (B.facts board.new).words) ≡ data_words (undo (B.facts board.old).words) }
    ensures done { OnOk result (data_words (overlay batch.new.waiting.items (B.facts board.new).words)
        ≡ slice_set (data_words (overlay batch.old.waiting.items (B.facts board.old).words)) new.at new.word) }
    ensures held { OnOk result (IsHeld (B.facts board.new) batch.new.used batch.new.waiting.items) }
    ensures sound { IsSound (B.facts board.new).words }
    ensures light { Answered (B.facts board.old) (B.facts board.new) result }
    ensures taken { batch.new.used + array_vec_len batch.new.waiting
        ≤ batch.old.used + array_vec_len batch.old.waiting + 1 }
    ensures runs { InRuns 1 (working (B.facts board.old) batch.old) (working (B.facts board.new) batch.new) }
    ensures goes_on { ContinuesRun (working (B.facts board.old) batch.old) new.at
        → InRuns 0 (working (B.facts board.old) batch.old) (working (B.facts board.new) batch.new) }
    ensures next { OnOk result (EndsAt (working (B.facts board.new) batch.new) new.at) }
    ensures spends { WritesAtMost (set_writes new (working (B.facts board.old) batch.old)) (B.facts board.old)
        (B.facts board.new) }
    ensures between { CommitsLast (B.facts board.old) (B.facts board.new) }
    ensures joins { OnOk result
        (Joins new (working (B.facts board.old) batch.old) (working (B.facts board.new) batch.new)) }
    ensures rises { gate (B.facts board.new).words ≡ 0 → (gate (B.facts board.old).words ≡ 0)
        × ((B.facts board.new).writes ≤ (B.facts board.old).writes + 2)
        × OnOk result ((B.facts board.new).writes ≤ (B.facts board.old).writes) }
{
    join(&mut batch.waiting, new);
    if batch.waiting.is_full() {
        return flush(board, batch);
    }
    Ok(())
}

/// Commits: writes the waiting sets, then turns the gate to 0. Without a set it writes nothing.
pub(crate) fn finish<B: Board>(board: &mut B, batch: &mut Batch) -> Result<(), DeviceErr>
    requires held { IsHeld (B.facts board.old) batch.old.used batch.old.waiting.items }
    ensures any_exit { (data_words (undo (B.facts board.new).words) ≡ data_words (undo (B.facts board.old).words))
        ⊎ ((data_words (undo (B.facts board.new).words)
        ≡ data_words (overlay batch.old.waiting.items (B.facts board.old).words))
        × TurnsGate (data_words (undo (B.facts board.old).words)) (working (B.facts board.new) batch.new)) }
    ensures last { (data_words (undo (B.facts board.new).words) ≡ data_words (undo (B.facts board.old).words))
        ⊎ ((B.facts board.old).writes + commit_writes (working (B.facts board.old) batch.old)
        ≤ (B.facts board.new).writes + 1) }
    ensures done { OnOk result (data_words (undo (B.facts board.new).words)
        ≡ data_words (overlay batch.old.waiting.items (B.facts board.old).words)) }
    ensures turned { gate (B.facts board.new).words ≡ 0 → (data_words (undo (B.facts board.new).words)
        ≡ data_words (overlay batch.old.waiting.items (B.facts board.old).words))
        ⊎ ((batch.old.used ≡ 0) × ((B.facts board.new).writes ≤ (B.facts board.old).writes + 2)) }
    ensures shut { OnOk result (gate (B.facts board.new).words ≡ 0) }
    ensures sound { IsSound (B.facts board.new).words }
    ensures light { Answered (B.facts board.old) (B.facts board.new) result }
    ensures counted { OnOk result ((B.facts board.new).writes
        ≡ (B.facts board.old).writes + commit_writes (working (B.facts board.old) batch.old)) }
    ensures writes { WritesAtMost (commit_writes (working (B.facts board.old) batch.old)) (B.facts board.old)
        (B.facts board.new) }
    ensures between { CommitsLast (B.facts board.old) (B.facts board.new) }
{
    flush(board, batch)?;
    if batch.used == 0 {
        return Ok(());
    }
    write_gate(board, 0)
}

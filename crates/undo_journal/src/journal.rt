//! The journal on a board: the gate, the check of the journal, and the rollback.
ghost use Rattle.std.specs.Prelude.{◌≡◌, ◌↔◌, ◌+◌, ◌*◌, ◌<◌, ◌≤◌, ℕ, false, IsTrue, IfOk, OnOk, MatchOption};
ghost use Rattle.std.specs.Prelude.{◌%◌, length};
ghost use Rattle.nvm_board.specs.History.{written};
ghost use Rattle.nvm_board.specs.Torn.{Torn};
ghost use Rattle.undo_journal.specs.declared.batch.TheConstants.{BATCH};
ghost use Rattle.nvm_board.specs.Facts.{Answered};
ghost use Rattle.undo_journal.specs.declared.layout.TheConstants.{GATE, JOURNAL, PAIRS};
ghost use Rattle.undo_journal.specs.Undo.{gate, pair_at, undo, IsOutside, IsDataAddress, IsSound};
ghost use Rattle.undo_journal.specs.Undo.{IsBadJournal};
ghost use Rattle.undo_journal.specs.Commits.{CommitsLast};
ghost use Rattle.undo_journal.specs.Spending.{WritesAtMost, WritesWord, KeepsBoard, rollback_writes};

use crate::address::Address;
use crate::layout::{GATE, JOURNAL, JOURNAL_END, PAIRS};
use nvm_board::{Board, DeviceErr, PAGE_WORDS};

/// Writes one word.
pub(crate) fn write_word<B: Board>(board: &mut B, at: Address, word: u32) -> Result<(), DeviceErr>
    requires { at.number < length (B.facts board.old).words }
    ensures { WritesWord at.number word (B.facts board.old) (B.facts board.new) result }
{
    let (page, place) = at.page_and_place();
    board.write(page, place, &[word])
}

/// Writes the number of pairs that count.
pub(crate) fn write_gate<B: Board>(board: &mut B, count: u16) -> Result<(), DeviceErr>
    ensures { WritesWord GATE count (B.facts board.old) (B.facts board.new) result }
{
    write_word(board, Address { number: GATE }, u32::from(count))
}

/// Returns the address of a pair of the journal.
pub(crate) fn pair_address(i: u16) -> Address
    requires { i < PAIRS }
    ensures { result.number ≡ JOURNAL + 2 * i }
{
    Address {
        number: JOURNAL + 2 * i,
    }
}

/// Writes pairs of one page into the journal.
pub(crate) fn write_pairs<B: Board>(board: &mut B, i: u16, words: &[u32]) -> Result<(), DeviceErr>
    requires whole { i % BATCH ≡ 0 }
    requires room { 2 * i + length words.now ≤ 2 * PAIRS }
    requires some { 0 < length words.now }
    requires few { length words.now ≤ 2 * BATCH }
    ensures done { OnOk result ((B.facts board.new).words ≡ written (B.facts board.old).words (JOURNAL + 2 * i)
        words.now) }
    ensures torn { Torn (B.facts board.old).words (JOURNAL + 2 * i) words.now (B.facts board.new).words }
    ensures light { Answered (B.facts board.old) (B.facts board.new) result }
    ensures counted { OnOk result ((B.facts board.new).writes ≡ (B.facts board.old).writes + 1) }
    ensures writes { WritesAtMost 1 (B.facts board.old) (B.facts board.new) }
    ensures between { CommitsLast (B.facts board.old) (B.facts board.new) }
{
    let (page, place) = pair_address(i).page_and_place();
    board.write(page, place, words)
}

/// Returns true for a data word's address. The memory has `words` words.
fn is_data_address(at: u32, words: u32) -> bool
    requires { GATE ≤ words }
    ensures { IsTrue result ↔ (IsOutside at × (at < words)) }
{
    at < u32::from(GATE) || (u32::from(JOURNAL_END)..words).contains(&at)
}

/// Returns the number of words, up to 65,536. That number doesn't fit in 16 bits.
fn word_count<B: Board>(board: &B) -> u32
    ensures { result ≡ length (B.facts board.now).words }
{
    u32::from(PAGE_WORDS) * u32::from(board.pages())
}

/// Returns true if the first `count` pairs all name data words.
fn names_data_words<B: Board>(board: &mut B, count: u16) -> Result<bool, DeviceErr>
    requires lit { (B.facts board.old).dark ≡ false }
    requires room { count ≤ PAIRS }
    ensures named { IfOk result (λ b. IsTrue b ↔
        ((i : ℕ) → i < count → IsDataAddress (B.facts board.old).words (pair_at (B.facts board.old).words i).address)) }
    ensures light { Answered (B.facts board.old) (B.facts board.new) result }
    ensures reads { KeepsBoard (B.facts board.old) (B.facts board.new) }
{
    let words = word_count(board);
    for i in 0..count {
        let at = board.read(pair_address(i).number)?;
        if !is_data_address(at, words) {
            return Ok(false);
        }
    }
    Ok(true)
}

/// Returns the number of pairs that count, `None` for an invalid journal.
pub(crate) fn sound_pairs<B: Board>(board: &mut B) -> Result<Option<u16>, DeviceErr>
    ensures sound { IfOk result (λ c. MatchOption c (IsBadJournal (B.facts board.old).words)
        (λ n. IsSound (B.facts board.old).words × (gate (B.facts board.old).words ≡ n))) }
    ensures light { Answered (B.facts board.old) (B.facts board.new) result }
    ensures reads { KeepsBoard (B.facts board.old) (B.facts board.new) }
{
    let count = board.read(GATE)?;
    if count > u32::from(PAIRS) {
        return Ok(None);
    }
    let count = count as u16;
    let sound = names_data_words(board, count)?;
    Ok(if sound { Some(count) } else { None })
}

/// Writes back the earlier word of a pair.
fn put_back<B: Board>(board: &mut B, i: u16) -> Result<(), DeviceErr>
    requires inside { i < PAIRS }
    requires place { IsDataAddress (B.facts board.old).words (pair_at (B.facts board.old).words i).address }
    ensures { let p = pair_at (B.facts board.old).words i in
        WritesWord p.address p.earlier (B.facts board.old) (B.facts board.new) result }
{
    let pair = pair_address(i);
    let at = board.read(pair.number)?;
    let earlier = board.read(pair.number + 1)?;
    write_word(board, Address { number: at as u16 }, earlier)
}

/// Writes back the earlier words, last pair first. Then it sets the gate to 0. Without a pair it writes nothing.
pub(crate) fn roll_back<B: Board>(board: &mut B, count: u16) -> Result<(), DeviceErr>
    requires sound { IsSound (B.facts board.old).words }
    requires counts { gate (B.facts board.old).words ≡ count }
    requires lit { (B.facts board.old).dark ≡ false }
    ensures kept { undo (B.facts board.new).words ≡ undo (B.facts board.old).words }
    ensures sound { IsSound (B.facts board.new).words }
    ensures done { OnOk result ((B.facts board.new).words ≡ undo (B.facts board.old).words) }
    ensures light { Answered (B.facts board.old) (B.facts board.new) result }
    ensures none { count ≡ 0 → B.facts board.new ≡ B.facts board.old }
    ensures counted { OnOk result ((B.facts board.new).writes ≡ (B.facts board.old).writes + rollback_writes count) }
    ensures writes { WritesAtMost (rollback_writes count) (B.facts board.old) (B.facts board.new) }
    ensures between { CommitsLast (B.facts board.old) (B.facts board.new) }
{
    if count == 0 {
        return Ok(());
    }
    let mut left = count;
    while left > 0 {
        left -= 1;
        put_back(board, left)?;
    }
    write_gate(board, 0)
}

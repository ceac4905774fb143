//! Old words leave the journal. Its pairs keep the earlier words of the last transactions, such as the value that a PIN
//! had, after none of them counts.
ghost use Rattle.std.specs.Prelude.{◌≡◌, ◌<◌, ◌≤◌, ◌+◌, ◌↔◌, ℕ, IsTrue, IfOk, OnOk};
ghost use Rattle.nvm_board.specs.Facts.{Answered};
ghost use Rattle.undo_journal.specs.Undo.{data_words, gate, undo};
ghost use Rattle.undo_journal.specs.Spending.{KeepsBoard};
ghost use Rattle.undo_journal.specs.ClearingParts.{AreClearedWords, ChangesEarlier, IsClearPage, IsPairPage};
ghost use Rattle.undo_journal.specs.Wiping.{IsInPages, IsWiped, NamesPages, NamesSame, SavesNothing, PAIR_PAGES};

use crate::journal::pair_address;
use crate::layout::{JOURNAL_END_PAGE, JOURNAL_PAGE, PAIRS};
use nvm_board::{Board, DeviceErr, PAGE_WORDS};

/// The number of pairs in a page.
const PAGE_PAIRS: u16 = PAGE_WORDS / 2;

/// The words of a page.
type Page = [u32; PAGE_WORDS as usize];

/// Writes zeros over all pairs of a journal, of which none counts. At every exit the words of the card are the same,
/// and no pair counts. After an error it is to be called again.
pub fn wipe_pairs<B: Board>(board: &mut B) -> Result<(), DeviceErr>
    requires { gate (B.facts board.old).words ≡ 0 }
    ensures data { data_words (undo (B.facts board.new).words) ≡ data_words (undo (B.facts board.old).words) }
    ensures shut { gate (B.facts board.new).words ≡ 0 }
    ensures wiped { OnOk result (IsWiped (B.facts board.new).words) }
    // An address of 0 is left in each pair. It is no word of a page above page 0.
    ensures unnamed { OnOk result ((first end : ℕ) → 0 < first → ¬ NamesPages first end (B.facts board.new).words) }
    ensures light { Answered (B.facts board.old) (B.facts board.new) result }
    ensures writes { (B.facts board.new).writes ≤ (B.facts board.old).writes + PAIR_PAGES }
    ensures compares { ((B.facts board.new).compares ≡ (B.facts board.old).compares)
        × ((B.facts board.new).matches ≡ (B.facts board.old).matches) }
{
    for page in JOURNAL_PAGE..JOURNAL_END_PAGE {
        board.write(page, 0, &[0; PAGE_WORDS as usize])?;
    }
    Ok(())
}

/// Returns true if the earlier words of a page of pairs are all 0.
fn is_clear<B: Board>(board: &mut B, page: u16) -> Result<bool, DeviceErr>
    requires page { IsPairPage page }
    ensures clear { IfOk result (λ b. IsTrue b → IsClearPage page (B.facts board.old).words) }
    ensures light { Answered (B.facts board.old) (B.facts board.new) result }
    ensures reads { KeepsBoard (B.facts board.old) (B.facts board.new) }
{
    for i in 0..PAGE_PAIRS {
        let earlier = board.read(PAGE_WORDS * page + 2 * i + 1)?;
        if earlier != 0 {
            return Ok(false);
        }
    }
    Ok(true)
}

/// Reads a page of pairs, with zeros for the earlier words.
fn cleared_words<B: Board>(board: &mut B, page: u16) -> Result<Page, DeviceErr>
    requires page { IsPairPage page }
    ensures words { IfOk result (λ run. AreClearedWords page (B.facts board.old).words run) }
    ensures light { Answered (B.facts board.old) (B.facts board.new) result }
    ensures reads { KeepsBoard (B.facts board.old) (B.facts board.new) }
{
    let mut words = [0; PAGE_WORDS as usize];
    for i in 0..PAGE_PAIRS {
        words[2 * i as usize] = board.read(PAGE_WORDS * page + 2 * i)?;
    }
    Ok(words)
}

/// Writes zeros over the earlier words of a page of pairs. If they are 0 it writes nothing.
fn clear_page<B: Board>(board: &mut B, page: u16) -> Result<(), DeviceErr>
    requires page { IsPairPage page }
    ensures changes { ChangesEarlier page (B.facts board.old).words (B.facts board.new).words }
    ensures clear { OnOk result (IsClearPage page (B.facts board.new).words) }
    ensures light { Answered (B.facts board.old) (B.facts board.new) result }
    ensures writes { (B.facts board.new).writes ≤ (B.facts board.old).writes + 1 }
    ensures compares { ((B.facts board.new).compares ≡ (B.facts board.old).compares)
        × ((B.facts board.new).matches ≡ (B.facts board.old).matches) }
{
    if is_clear(board, page)? {
        return Ok(());
    }
    let words = cleared_words(board, page)?;
    board.write(page, 0, &words)?;
    Ok(())
}

/// Writes zeros over the earlier words of all pairs of a journal, of which none counts. Their addresses stay, at every
/// exit. They are the sign that an old word may be in the board's device, until `wipe_pairs` removes it. At every exit
/// the words of the card are the same, and no pair counts. After an error it is to be called again.
pub fn clear_pairs<B: Board>(board: &mut B) -> Result<(), DeviceErr>
    requires { gate (B.facts board.old).words ≡ 0 }
    ensures data { data_words (undo (B.facts board.new).words) ≡ data_words (undo (B.facts board.old).words) }
    ensures shut { gate (B.facts board.new).words ≡ 0 }
    ensures names { NamesSame (B.facts board.old).words (B.facts board.new).words }
    ensures cleared { OnOk result (SavesNothing (B.facts board.new).words) }
    ensures light { Answered (B.facts board.old) (B.facts board.new) result }
    ensures writes { (B.facts board.new).writes ≤ (B.facts board.old).writes + PAIR_PAGES }
    ensures compares { ((B.facts board.new).compares ≡ (B.facts board.old).compares)
        × ((B.facts board.new).matches ≡ (B.facts board.old).matches) }
{
    for pair_page in JOURNAL_PAGE..JOURNAL_END_PAGE {
        clear_page(board, pair_page)?;
    }
    Ok(())
}

/// Returns true if an address lies in the pages from `first` on, before page `end`.
fn is_in_pages(at: u32, first: u16, end: u16) -> bool
    ensures { IsTrue result ↔ IsInPages first end at }
{
    let size = u32::from(PAGE_WORDS);
    (size * u32::from(first)..size * u32::from(end)).contains(&at)
}

/// Returns true if a pair of the journal names a word of the pages from `first` on, before page `end`. A pair that
/// doesn't count is looked at too.
pub fn names_pages<B: Board>(board: &mut B, first: u16, end: u16) -> Result<bool, DeviceErr>
    ensures named { IfOk result (λ b. IsTrue b ↔ NamesPages first end (B.facts board.old).words) }
    ensures light { Answered (B.facts board.old) (B.facts board.new) result }
    ensures reads { KeepsBoard (B.facts board.old) (B.facts board.new) }
{
    for i in 0..PAIRS {
        let at = board.read(pair_address(i).number)?;
        if is_in_pages(at, first, end) {
            return Ok(true);
        }
    }
    Ok(false)
}

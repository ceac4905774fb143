//! The store: the words after a cut at each write, of a change and of the recovery after it; and errors.
//! `card_tests` tests which journals are bad.
ghost use Rattle.std.specs.Prelude.{◌≤◌, OnOk};
ghost use Rattle.undo_journal.specs.Memory.{IsReady};
ghost use Rattle.undo_journal.specs.Lent.{memory_of};
ghost use Rattle.undo_journal.specs.Rooms.{HasRoom};

use crate::endings::{End, MASKS, reopened};
use crate::fixtures::{opened, with_words};
use nvm_board::{Armed, Board, DeviceErr, Socket};
use simulated_boards::CutBoard;
use std::alloc::Global;
use std::process::Abort;
use std::test::Fail;
use undo_journal::{OpenFault, Store, StoreErr, Txn};

// Words 5, 2048 and 2049, one before the journal and two after it: before and after the change.
const BEFORE: [u32; 3] = [50, 60, 61];

const AFTER: [u32; 3] = [3, 2, 4];

// The words before the change. The first pair of the journal is old and doesn't count: it names no data word.
const WORDS: &[(u16, u32)] = &[
    (5, 50),
    (1184, 0xFFFF_FFFF),
    (1185, 50),
    (2048, 60),
    (2049, 61),
];

/// Returns the three words.
fn found<B: Board>(store: &mut Store<B>) -> Result<[u32; 3], StoreErr>
    requires { IsReady store.old }
    ensures { OnOk result (IsReady store.new) }
{
    Ok([
        store.read_committed(5)?,
        store.read(2048)?,
        store.read_committed(2049)?,
    ])
}

/// Sets four words, two of them equal, so that three wait. The read before makes no write.
fn set_words<B: Board>(txn: &mut Txn<'_, B>) -> Result<(), StoreErr>
    requires { HasRoom (memory_of txn.old) 4 }
{
    txn.read(5)?;
    txn.set(5, 1)?;
    txn.set(5, 3)?;
    txn.set_run(2048, &[2, 4])
}

fn change<B: Board>(store: &mut Store<B>, end: End) -> Result<(), StoreErr>
    requires { IsReady store.old }
{
    let mut txn = store.begin();
    let set = set_words(&mut txn);
    end.of(txn, set)
}

// A cut at a device write, counted from 1. The words whose bit of the mask is set are new.
#[derive(Clone, Copy)]
struct Cut {
    write: u32,
    mask: u16,
}

/// Returns the words of a board after recovery.
fn found_again(mut board: CutBoard) -> Result<[u32; 3], Fail> {
    board.light()?;
    let mut store = opened(board)?;
    Ok(found(&mut store)?)
}

/// Returns a board after a cut change.
fn changed(alloc: Global, end: End, cut: Cut) -> Result<CutBoard, Fail>
    requires { 1 ≤ cut.write }
{
    let mut store = opened(with_words(CutBoard::new(alloc)?, WORDS)?)?;
    store.arm(cut.write, cut.mask);
    let _ = change(&mut store, end);
    Ok(store.into_board())
}

/// Returns the words after a cut change and a cut recovery.
/// The recovery is cut at write `next`.
/// The recovery isn't cut if it makes fewer writes.
fn words_after(alloc: Global, end: End, cut: Cut, next: u32) -> Result<[u32; 3], Fail>
    requires change { 1 ≤ cut.write }
    requires opening { 1 ≤ next }
{
    let board = changed(alloc, end, cut)?;
    found_again(reopened(board, next, cut.mask)?)
}

/// Returns true if a cut leaves the words after the change.
/// The writes are the pairs, the gate, word 5, words 2048 and 2049, and the gate. The fifth decides.
fn is_after(end: End, cut: Cut) -> bool {
    match end {
        End::Commits => cut.write > 5 || cut.write == 5 && cut.mask & 1 == 1,
        End::Abandons => false,
    }
}

// The end of a change, and its device writes: a commit makes five; without a write nothing has to be rolled back.
const ENDS: &[(End, u32)] = &[(End::Commits, 5), (End::Abandons, 0)];

/// Checks a cut change, with a recovery that is cut or not.
fn check_cut<R: Abort + AllocGlobal>(rt: &R, end: End, cut: Cut) -> Result<(), Fail>
    requires { 1 ≤ cut.write }
{
    let want = if is_after(end, cut) { AFTER } else { BEFORE };
    for next in 1..=7 {
        let words = words_after(rt.alloc(), end, cut, next)?;
        assert!(rt; words == want, "at {}", cut.write);
    }
    Ok(())
}

#[test]
fn finds_before_or_after_each_cut(rt: HostRuntime) -> Result<(), Fail> {
    for &(end, writes) in ENDS {
        for write in 1..=writes + 1 {
            for &mask in MASKS {
                check_cut(&rt, end, Cut { write, mask })?;
            }
        }
    }
    Ok(())
}

// Two pairs that name one word. The first of them counts.
const TWICE: &[(u16, u32)] = &[
    (1168, 2),
    (1184, 2049),
    (1185, 0x9810_3254),
    (1186, 2049),
    (1187, 0),
    (2049, 7),
];

#[test]
fn takes_back_the_first_pair_of_a_word(rt: HostRuntime) -> Result<(), Fail> {
    let board = with_words(CutBoard::new(rt.alloc())?, TWICE)?;
    assert!(rt; found_again(board)? == [0, 0, 0x9810_3254]);
    Ok(())
}

/// Writes single words and a run without undo. A cut leaves some of them written.
fn write_without_undo<B: Board>(store: &mut Store<B>) -> Result<(), StoreErr>
    requires { IsReady store.old }
{
    store.put_alone(5, 7)?;
    store.write_plain(128, 0, &[8, 9])?;
    store.write_plain(128, 0, &[1, 2])
}

/// Returns true if a store answers every call with power loss.
fn stays_dark<B: Board>(store: &mut Store<B>) -> bool
    requires { IsReady store.old }
{
    let mut txn = store.begin();
    let set = txn.set(2048, 3);
    let committed = txn.commit();
    let compared = store.compare(0, &[1; 8], &[1; 8]);
    let answers = [committed, store.begin().abandon(), store.begin().commit()];
    // A set that waits makes no call of the board.
    set == Ok(())
        && answers == [Err(StoreErr::PowerLost); 3]
        && compared == Err(StoreErr::PowerLost)
}

#[test]
fn writes_without_undo(rt: HostRuntime) -> Result<(), Fail> {
    let mut store = opened(with_words(CutBoard::new(rt.alloc())?, WORDS)?)?;
    store.arm(3, 0x0001);
    assert!(rt; write_without_undo(&mut store) == Err(StoreErr::PowerLost));
    assert!(rt; found_again(store.into_board())? == [7, 1, 9]);
    Ok(())
}

#[test]
fn answers_the_same_error_until_it_is_opened_again(rt: HostRuntime) -> Result<(), Fail> {
    let mut store = opened(with_words(CutBoard::new(rt.alloc())?, WORDS)?)?;
    store.arm(1, 0x0000);
    let is_dark = stays_dark(&mut store);
    let mut board = store.into_board();
    assert!(rt; is_dark && board.read(0) == Err(DeviceErr::PowerLost));
    assert!(rt; found_again(board)? == BEFORE);
    Ok(())
}

/// Returns the three words of a board, without recovery.
fn standing(board: &mut CutBoard) -> Result<[u32; 3], Fail> {
    board.light()?;
    Ok([board.read(5)?, board.read(2048)?, board.read(2049)?])
}

// The words if the change is cut at device write 1, 2 and so on, with no word new. The writes are those of the pairs,
// the gate, word 5 as it was set last, words 2048 and 2049, and the gate.
const SET: &[[u32; 3]] = &[
    [50, 60, 61],
    [50, 60, 61],
    [50, 60, 61],
    [3, 60, 61],
    [3, 2, 4],
];

#[test]
fn words_come_in_the_order_of_their_addresses(rt: HostRuntime) -> Result<(), Fail> {
    for (i, want) in SET.iter().enumerate() {
        let write = i as u32 + 1;
        let mut board = changed(rt.alloc(), End::Commits, Cut { write, mask: 0 })?;
        assert!(rt; standing(&mut board)? == *want, "at {write}");
    }
    Ok(())
}

// The words if the recovery after an uncommitted change is cut at device write 1, 2 and so on. It restores the words
// from the last pair to the first. The fourth write is the gate.
const ROLLED_BACK: &[[u32; 3]] = &[[3, 2, 4], [3, 2, 61], [3, 60, 61], [50, 60, 61]];

#[test]
fn pairs_come_back_from_the_last(rt: HostRuntime) -> Result<(), Fail> {
    for (i, want) in ROLLED_BACK.iter().enumerate() {
        let board = changed(rt.alloc(), End::Commits, Cut { write: 5, mask: 0 })?;
        let mut board = reopened(board, i as u32 + 1, 0)?;
        assert!(rt; standing(&mut board)? == *want, "at {}", i + 1);
    }
    Ok(())
}

// A counting pair that names a word of page 1,024.
const BEHIND: &[(u16, u32)] = &[(1168, 1), (1184, 16_384), (1185, 9)];

/// Returns true if a store of this number of pages opens, and its pair is put back.
fn puts_back(board: CutBoard, pages: u16) -> bool {
    let Ok(mut store) = Store::open(board) else {
        return false;
    };
    pages > 1024 && store.pages() == pages && store.read(16_384) == Ok(9)
}

#[test]
fn a_pair_past_page_1023_is_good_on_more_pages(rt: HostRuntime) -> Result<(), Fail> {
    for pages in [1030u16, 4096] {
        let board = with_words(CutBoard::with_pages(rt.alloc(), pages)?, BEHIND)?;
        assert!(rt; puts_back(board, pages), "{pages}");
    }
    Ok(())
}

#[test]
fn a_pair_past_the_pages_is_bad(rt: HostRuntime) -> Result<(), Fail> {
    let board = with_words(CutBoard::new(rt.alloc())?, BEHIND)?;
    assert!(rt; matches!(Store::open(board), Err((_, OpenFault::BadJournal))));
    Ok(())
}

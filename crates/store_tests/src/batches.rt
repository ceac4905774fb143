//! Sets that wait and are written eight together: device writes, counted, and words before or after a cut at each of
//! them, and at each of those of the opening after it.
ghost use Rattle.std.specs.Prelude.{◌≤◌, OnOk};
ghost use Rattle.undo_journal.specs.Memory.{IsReady};
ghost use Rattle.undo_journal.specs.Lent.{memory_of};
ghost use Rattle.undo_journal.specs.Rooms.{HasRoom};

use crate::endings::{End, MASKS, reopened};
use crate::fixtures::opened;
use nvm_board::{Armed, Board, Socket};
use simulated_boards::CutBoard;
use std::alloc::Global;
use std::process::Abort;
use std::test::Fail;
use undo_journal::{Store, StoreErr, Txn};

// Words 5, 2048, 2052, 3000 and 3007 after the change. All are 0 before it.
const AFTER: [u32; 5] = [3, 2, 9, 1, 8];

/// Sets fourteen words, two of them equal.
/// Eight of them fill a batch.
/// Words 5, 2048 to 2050, 2052 and 3000 to 3002 are in the batch; 3003 to 3007 wait.
fn set_words<B: Board>(txn: &mut Txn<'_, B>) -> Result<(), StoreErr>
    requires { HasRoom (memory_of txn.old) 14 }
{
    txn.set(5, 1)?;
    txn.set(2052, 9)?;
    txn.set(5, 3)?;
    txn.set_run(2048, &[2, 4, 5])?;
    txn.set_run(3000, &[1, 2, 3, 4, 5, 6, 7, 8])
}

// The end of a change, and its device writes. A commit writes the pairs of the batch, the gate and four runs; the pairs
// of the other five words, the gate and their run; and the gate again. A rollback writes the eight words of the batch
// and the gate.
const ENDS: &[(End, u32)] = &[(End::Commits, 6 + 3 + 1), (End::Abandons, 6 + 8 + 1)];

fn change<B: Board>(store: &mut Store<B>, end: End) -> Result<(), StoreErr>
    requires { IsReady store.old }
{
    let mut txn = store.begin();
    let set = set_words(&mut txn);
    end.of(txn, set)
}

/// Returns the five words.
fn found<B: Board>(store: &mut Store<B>) -> Result<[u32; 5], StoreErr>
    requires { IsReady store.old }
    ensures { OnOk result (IsReady store.new) }
{
    Ok([
        store.read(5)?,
        store.read(2048)?,
        store.read(2052)?,
        store.read(3000)?,
        store.read(3007)?,
    ])
}

/// Returns the five words of a board after recovery.
fn found_again(mut board: CutBoard) -> Result<[u32; 5], Fail> {
    board.light()?;
    let mut store = opened(board)?;
    Ok(found(&mut store)?)
}

// A cut at a device write of the change, counted from 1, with those words new whose bit of the mask is set; and one at
// a write of the opening after it, by the mask's first bit.
#[derive(Clone, Copy)]
struct Cuts {
    write: u32,
    mask: u16,
    next: u32,
}

/// Whether a change is cut that is armed at a write, and the words after it, when there is power again, and the next
/// opening is cut too, or not where it makes fewer writes.
fn cut_at(alloc: Global, end: End, cuts: Cuts) -> Result<(bool, [u32; 5]), Fail>
    requires change { 1 ≤ cuts.write }
    requires opening { 1 ≤ cuts.next }
{
    let mut store = opened(CutBoard::new(alloc)?)?;
    store.arm(cuts.write, cuts.mask);
    let is_cut = change(&mut store, end).is_err();
    let board = reopened(store.into_board(), cuts.next, cuts.mask)?;
    Ok((is_cut, found_again(board)?))
}

/// Returns the expected words after a cut.
/// They are the new ones if and only if the last write of a commit was made.
fn words_after(end: End, writes: u32, write: u32, mask: u16) -> [u32; 5] {
    match end {
        End::Commits if write > writes || write == writes && mask & 1 == 1 => AFTER,
        _ => [0; 5],
    }
}

// An opening makes at most one device write for each of the thirteen pairs, and one for the gate.
const OPENING_WRITES: u32 = 14;

/// A change is cut at a write, or not where it makes fewer, and so is the opening after it, at each of its writes.
fn check_cut<R: Abort + AllocGlobal>(
    rt: &R,
    change: (End, u32),
    write: u32,
    mask: u16,
) -> Result<(), Fail>
    requires { 1 ≤ write }
{
    let (end, writes) = change;
    for next in 1..=OPENING_WRITES + 1 {
        let found = cut_at(rt.alloc(), end, Cuts { write, mask, next })?;
        assert!(rt;
            found == (write <= writes, words_after(end, writes, write, mask)),
            "at {write}, and then at {next}"
        );
    }
    Ok(())
}

/// A change is cut at each of its writes, and not past them.
fn check_end<R: Abort + AllocGlobal>(rt: &R, end: End, writes: u32) -> Result<(), Fail> {
    for write in 1..=writes.saturating_add(1) {
        for &mask in MASKS {
            check_cut(rt, (end, writes), write, mask)?;
        }
    }
    Ok(())
}

#[test]
fn writes_eight_together(rt: HostRuntime) -> Result<(), Fail> {
    for &(end, writes) in ENDS {
        check_end(&rt, end, writes)?;
    }
    Ok(())
}

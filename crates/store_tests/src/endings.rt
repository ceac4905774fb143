//! The ends of changes that tests cut, the masks of a cut device write, and an opening that is cut.
ghost use Rattle.std.specs.Prelude.{◌≤◌};

use nvm_board::{Armed, Board, Socket};
use simulated_boards::CutBoard;
use std::test::Fail;
use undo_journal::{Store, StoreErr, Txn};

/// Masks of a cut write: no word, all, first only, second only.
pub const MASKS: &[u16] = &[0x0000, 0xFFFF, 0x0001, 0x0002];

/// The end of a change.
#[derive(Clone, Copy)]
pub enum End {
    Commits,
    Abandons,
}

impl End {
    /// Ends a change: commits only if its sets succeeded.
    pub fn of<B: Board>(self, txn: Txn<'_, B>, set: Result<(), StoreErr>) -> Result<(), StoreErr> {
        match (set, self) {
            (Ok(()), End::Commits) => txn.commit(),
            _ => txn.abandon(),
        }
    }
}

/// Opens the store of a board with a cut at this write, and returns the board.
/// The cut is only there if the opening makes the write.
pub fn reopened(mut board: CutBoard, write: u32, mask: u16) -> Result<CutBoard, Fail>
    requires { 1 ≤ write }
{
    board.light()?;
    board.arm(write, mask & 1);
    match Store::open(board) {
        Ok(store) => Ok(store.into_board()),
        Err((board, _)) => Ok(board),
    }
}

//! Boards and stores with given words, for the tests of the store and of the layers above.
ghost use Rattle.std.specs.Prelude.{IfOk};
ghost use Rattle.undo_journal.specs.Memory.{IsReady};

use nvm_board::Board;
use std::test::Fail;
use undo_journal::Store;

/// Returns a board with these words, except those past its end.
pub fn with_words<B: Board + Drop>(mut board: B, words: &[(u16, u32)]) -> Result<B, Fail> {
    for &(at, word) in words {
        let page = at / 16;
        if page < board.pages() {
            board.write(page, (at % 16) as u8, &[word])?;
        }
    }
    Ok(board)
}

/// Opens the store of a board.
pub fn opened<B: Board + Drop>(board: B) -> Result<Store<B>, Fail>
    ensures { IfOk result IsReady }
{
    match Store::open(board) {
        Ok(store) => Ok(store),
        Err(_) => Err(Fail::from("not opened")),
    }
}

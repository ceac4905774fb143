//! A board that a script can run on: it has the memory that the charges of its lines need.
ghost use Rattle.std.specs.Prelude.{◌≡◌, OnErr, IfErr, IfOk, true};

use simulated_boards::Followed;
use std::alloc::AllocError;
use std::marker::Model;

/// A board that a script can run on, with a second board exactly if `is_followed`: never for a flash. A charge takes
/// the second one, so that a run asks for no memory.
#[derive(Drop)]
pub struct ScriptBoard<B: Followed> {
    pub(crate) board: B,
    pub(crate) second: Option<B>,
}

impl<B: Followed> Model for ScriptBoard<B> {
    ghost use Rattle.std.specs.Prelude.{◌≡◌, is_some};
    ghost use Rattle.nvm_board.specs.Facts.{Facts};
    ghost use Rattle.card_bench.specs.Charges.{HasSecond};

    ghost Value = { Facts };

    ghost view = { λ s. B.facts s.board };

    ghost invariant = { λ s. HasSecond B.facts B.can_copy s.second (B.facts s.board)
        × (is_some s.second ≡ B.has_follower s.board) };
}

impl<B: Followed> ScriptBoard<B> {
    /// Returns the board with a second one, if `is_followed`. Else it asks for no memory.
    ///
    /// # Errors
    /// There is too little memory for the second board. The board comes back as it was.
    pub fn new(board: B) -> Result<ScriptBoard<B>, (B, AllocError)>
        // A copy can't take the board's place: it has no log, and the board may have one.
        ensures facts { IfOk result (λ script_board. script_board ≡ B.facts board) }
        ensures memory { OnErr result (B.has_follower board ≡ true) }
        ensures returned { IfErr result (λ lack. lack.0 ≡ board) }
    {
        if !board.is_followed() {
            return Ok(ScriptBoard {
                board,
                second: None,
            });
        }
        match board.unfollowed_copy() {
            Ok(copy) => Ok(ScriptBoard {
                board,
                second: Some(copy),
            }),
            Err(error) => Err((board, error)),
        }
    }
}
